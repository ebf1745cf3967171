// The key strip.
ghost use Rattle.octets.specs.Answer.{Writes};
ghost use Rattle.keys.specs.Keys.{stripping};

use octets::answer::number;

pub fn keys_strip(tab: &[u8], offset: u32, width: u32, out: &mut [u8]) -> u32
    ensures { Writes (stripping tab.now offset width out.old) result out.new }
{
    number(keys::call::keys_strip(tab, offset, width, out))
}
