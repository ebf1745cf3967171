// The recorded calls, done again: which call a tag is, as docs/RECORDING.md lists them.
use crate::entry::Head;
use calls::{fresh, lines, modes, motion, print, tab, typing, words};
use octets::answer;

#[derive(Clone, Copy)]
pub enum Call {
    New,
    PrintBytes,
    TypeChar,
    Backspace,
    DeleteChar,
    EraseToEnd,
    EscapeLine,
    Tab,
    CtrlEnter,
    TakeLogicalLine,
    BreakLine,
    MoveLeft,
    MoveRight,
    MoveUp,
    MoveDown,
    Home,
    WordLeft,
    WordRight,
    EndOfLine,
    Clear,
    SetWidth,
    SetCursor,
    SetInsert,
    SetAttr,
    SetKeysOn,
    PrintChecked,
}

// A tag that is none.
#[derive(Clone, Copy)]
pub struct NoCall;

impl TryFrom<u8> for Call {
    type Error = NoCall;

    fn try_from(tag: u8) -> Result<Call, NoCall> {
        Ok(match tag {
            0 => Call::New,
            1 => Call::PrintBytes,
            2 => Call::TypeChar,
            3 => Call::Backspace,
            4 => Call::DeleteChar,
            5 => Call::EraseToEnd,
            6 => Call::EscapeLine,
            7 => Call::Tab,
            8 => Call::CtrlEnter,
            9 => Call::TakeLogicalLine,
            10 => Call::BreakLine,
            11 => Call::MoveLeft,
            12 => Call::MoveRight,
            13 => Call::MoveUp,
            14 => Call::MoveDown,
            15 => Call::Home,
            16 => Call::WordLeft,
            17 => Call::WordRight,
            18 => Call::EndOfLine,
            19 => Call::Clear,
            20 => Call::SetWidth,
            21 => Call::SetCursor,
            22 => Call::SetInsert,
            23 => Call::SetAttr,
            24 => Call::SetKeysOn,
            25 => Call::PrintChecked,
            _ => return Err(NoCall),
        })
    }
}

impl Call {
    // Does the call with the arguments of this head and this input, and answers what it answers.
    pub fn again(self, head: &Head, input: &[u8], rec: &mut [u8], out: &mut [u8]) -> u32 {
        let answered = match self {
            Call::New => fresh::new_screen(rec, head.first, head.second),
            Call::PrintBytes => print::print_bytes(rec, input),
            Call::TypeChar => typing::type_char(rec, head.first),
            Call::Backspace => typing::backspace(rec),
            Call::DeleteChar => typing::delete_char(rec),
            Call::EraseToEnd => typing::erase_to_end(rec),
            Call::EscapeLine => lines::escape_line(rec),
            Call::Tab => tab::tab(rec),
            Call::CtrlEnter => lines::ctrl_enter(rec),
            Call::TakeLogicalLine => return answer::number(lines::take_logical_line(rec, out)),
            Call::BreakLine => lines::break_line(rec),
            Call::MoveLeft => motion::move_left(rec),
            Call::MoveRight => motion::move_right(rec),
            Call::MoveUp => motion::move_up(rec),
            Call::MoveDown => motion::move_down(rec),
            Call::Home => motion::home(rec),
            Call::WordLeft => words::word_left(rec),
            Call::WordRight => words::word_right(rec),
            Call::EndOfLine => motion::end_of_line(rec),
            Call::Clear => modes::clear(rec),
            Call::SetWidth => modes::set_width(rec, head.first),
            Call::SetCursor => motion::set_cursor(rec, head.first, head.second),
            Call::SetInsert => modes::set_insert(rec, head.first),
            Call::SetAttr => modes::set_attr(rec, head.first),
            Call::SetKeysOn => modes::set_keys_on(rec, head.first),
            Call::PrintChecked => print::print_checked(rec, input),
        };
        answer::done(answered)
    }
}
