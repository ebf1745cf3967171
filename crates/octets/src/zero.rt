// Tests of each byte, and bytes that must be zero.
ghost use Rattle.std.specs.Prelude.{ℕ, Bool, ◌≡◌};
ghost use Rattle.octets.specs.Test.{zerob, every};

// Do all bytes pass, whatever test p it is? All are looked at, with no early way out, so that it is compiled to vector instructions.
pub fn all_pass<F: Fn(u8) -> bool>(bytes: &[u8], test: F) -> bool
    requires { (c : ℕ) → F.pre test c }
    ensures { (p : ℕ → Bool) → ((c : ℕ) (b : Bool) → F.post test c b → b ≡ p c) → result ≡ every p bytes.now }
{
    bytes.iter().fold(true, |all, c| all & test(*c))
}

pub fn all_zero(bytes: &[u8]) -> bool
    ensures { result ≡ every zerob bytes.now }
{
    all_pass(bytes, |c| c == 0)
}
