// The changing calls on a lent screen record.
ghost use Rattle.editor.specs.Call.{PrintBytes, PrintChecked, PrintWaiting, TypeChar, TypeLimited, Backspace, DeleteChar, EraseToEnd, EscapeLine, Tab, CtrlEnter, TakeLogicalLine, BreakLine, MoveLeft, MoveRight, MoveUp, MoveDown, Home, WordLeft, WordRight, EndOfLine, Clear, SetWidth, SetCursor, SetInsert, SetAttr, SetKeysOn};
ghost use Rattle.editor.specs.Outcome.{changing};
ghost use Rattle.calls.specs.Answers.{Answers, Submits};

use calls::{lines, modes, motion, print, tab, typing, words};
use octets::answer::{done, number};

pub fn screen_print_bytes(rec: &mut [u8], bytes: &[u8]) -> u32
    ensures { Answers (changing (PrintBytes bytes.now) rec.old) result rec.new }
{
    done(print::print_bytes(rec, bytes))
}

pub fn screen_print_checked(rec: &mut [u8], bytes: &[u8]) -> u32
    ensures { Answers (changing (PrintChecked bytes.now) rec.old) result rec.new }
{
    done(print::print_checked(rec, bytes))
}

pub fn screen_print_waiting(rec: &mut [u8], bytes: &[u8], rows: u32) -> u32
    ensures { Answers (changing (PrintWaiting bytes.now rows) rec.old) result rec.new }
{
    number(print::print_waiting(rec, bytes, rows))
}

pub fn screen_type_char(rec: &mut [u8], ch: u32) -> u32
    ensures { Answers (changing (TypeChar ch) rec.old) result rec.new }
{
    done(typing::type_char(rec, ch))
}

pub fn screen_type_limited(rec: &mut [u8], ch: u32, limit: u32) -> u32
    ensures { Answers (changing (TypeLimited ch limit) rec.old) result rec.new }
{
    done(typing::type_limited(rec, ch, limit))
}

pub fn screen_backspace(rec: &mut [u8]) -> u32
    ensures { Answers (changing Backspace rec.old) result rec.new }
{
    done(typing::backspace(rec))
}

pub fn screen_delete_char(rec: &mut [u8]) -> u32
    ensures { Answers (changing DeleteChar rec.old) result rec.new }
{
    done(typing::delete_char(rec))
}

pub fn screen_erase_to_end(rec: &mut [u8]) -> u32
    ensures { Answers (changing EraseToEnd rec.old) result rec.new }
{
    done(typing::erase_to_end(rec))
}

pub fn screen_escape_line(rec: &mut [u8]) -> u32
    ensures { Answers (changing EscapeLine rec.old) result rec.new }
{
    done(lines::escape_line(rec))
}

pub fn screen_tab(rec: &mut [u8]) -> u32
    ensures { Answers (changing Tab rec.old) result rec.new }
{
    done(tab::tab(rec))
}

pub fn screen_ctrl_enter(rec: &mut [u8]) -> u32
    ensures { Answers (changing CtrlEnter rec.old) result rec.new }
{
    done(lines::ctrl_enter(rec))
}

pub fn screen_take_logical_line(rec: &mut [u8], out: &mut [u8]) -> u32
    ensures { Submits (changing (TakeLogicalLine out.old) rec.old) result rec.new out.new }
{
    number(lines::take_logical_line(rec, out))
}

pub fn screen_break_line(rec: &mut [u8]) -> u32
    ensures { Answers (changing BreakLine rec.old) result rec.new }
{
    done(lines::break_line(rec))
}

pub fn screen_move_left(rec: &mut [u8]) -> u32
    ensures { Answers (changing MoveLeft rec.old) result rec.new }
{
    done(motion::move_left(rec))
}

pub fn screen_move_right(rec: &mut [u8]) -> u32
    ensures { Answers (changing MoveRight rec.old) result rec.new }
{
    done(motion::move_right(rec))
}

pub fn screen_move_up(rec: &mut [u8]) -> u32
    ensures { Answers (changing MoveUp rec.old) result rec.new }
{
    done(motion::move_up(rec))
}

pub fn screen_move_down(rec: &mut [u8]) -> u32
    ensures { Answers (changing MoveDown rec.old) result rec.new }
{
    done(motion::move_down(rec))
}

pub fn screen_home(rec: &mut [u8]) -> u32
    ensures { Answers (changing Home rec.old) result rec.new }
{
    done(motion::home(rec))
}

pub fn screen_word_left(rec: &mut [u8]) -> u32
    ensures { Answers (changing WordLeft rec.old) result rec.new }
{
    done(words::word_left(rec))
}

pub fn screen_word_right(rec: &mut [u8]) -> u32
    ensures { Answers (changing WordRight rec.old) result rec.new }
{
    done(words::word_right(rec))
}

pub fn screen_end_of_line(rec: &mut [u8]) -> u32
    ensures { Answers (changing EndOfLine rec.old) result rec.new }
{
    done(motion::end_of_line(rec))
}

pub fn screen_clear(rec: &mut [u8]) -> u32
    ensures { Answers (changing Clear rec.old) result rec.new }
{
    done(modes::clear(rec))
}

pub fn screen_set_width(rec: &mut [u8], width: u32) -> u32
    ensures { Answers (changing (SetWidth width) rec.old) result rec.new }
{
    done(modes::set_width(rec, width))
}

pub fn screen_set_cursor(rec: &mut [u8], row: u32, col: u32) -> u32
    ensures { Answers (changing (SetCursor row col) rec.old) result rec.new }
{
    done(motion::set_cursor(rec, row, col))
}

pub fn screen_set_insert(rec: &mut [u8], on: u32) -> u32
    ensures { Answers (changing (SetInsert on) rec.old) result rec.new }
{
    done(modes::set_insert(rec, on))
}

pub fn screen_set_attr(rec: &mut [u8], attr: u32) -> u32
    ensures { Answers (changing (SetAttr attr) rec.old) result rec.new }
{
    done(modes::set_attr(rec, attr))
}

pub fn screen_set_keys_on(rec: &mut [u8], on: u32) -> u32
    ensures { Answers (changing (SetKeysOn on) rec.old) result rec.new }
{
    done(modes::set_keys_on(rec, on))
}
