// The changing calls on a lent screen record.
ghost use Rattle.editor.specs.Call.{PrintBytes, PrintChecked, PrintWaiting, TypeChar, TypeLimited, Backspace, DeleteChar, EraseToEnd, EscapeLine, Tab, CtrlEnter, TakeLogicalLine, BreakLine, MoveLeft, MoveRight, MoveUp, MoveDown, Home, WordLeft, WordRight, EndOfLine, Clear, SetWidth, SetCursor, SetInsert, SetAttr, SetKeysOn};
ghost use Rattle.editor.specs.Outcome.{changing};
ghost use Rattle.calls.specs.Answers.{Answers, Submits};

use api::changing;

#[unsafe(no_mangle)]
pub extern "C" fn screen_print_bytes(rec: &mut [u8], bytes: &[u8]) -> u32
    ensures { Answers (changing (PrintBytes bytes.now) rec.old) result rec.new }
{
    changing::screen_print_bytes(rec, bytes)
}

#[unsafe(no_mangle)]
pub extern "C" fn screen_print_checked(rec: &mut [u8], bytes: &[u8]) -> u32
    ensures { Answers (changing (PrintChecked bytes.now) rec.old) result rec.new }
{
    changing::screen_print_checked(rec, bytes)
}

#[unsafe(no_mangle)]
pub extern "C" fn screen_print_waiting(rec: &mut [u8], bytes: &[u8], rows: u32) -> u32
    ensures { Answers (changing (PrintWaiting bytes.now rows) rec.old) result rec.new }
{
    changing::screen_print_waiting(rec, bytes, rows)
}

#[unsafe(no_mangle)]
pub extern "C" fn screen_type_char(rec: &mut [u8], ch: u32) -> u32
    ensures { Answers (changing (TypeChar ch) rec.old) result rec.new }
{
    changing::screen_type_char(rec, ch)
}

#[unsafe(no_mangle)]
pub extern "C" fn screen_type_limited(rec: &mut [u8], ch: u32, limit: u32) -> u32
    ensures { Answers (changing (TypeLimited ch limit) rec.old) result rec.new }
{
    changing::screen_type_limited(rec, ch, limit)
}

#[unsafe(no_mangle)]
pub extern "C" fn screen_backspace(rec: &mut [u8]) -> u32
    ensures { Answers (changing Backspace rec.old) result rec.new }
{
    changing::screen_backspace(rec)
}

#[unsafe(no_mangle)]
pub extern "C" fn screen_delete_char(rec: &mut [u8]) -> u32
    ensures { Answers (changing DeleteChar rec.old) result rec.new }
{
    changing::screen_delete_char(rec)
}

#[unsafe(no_mangle)]
pub extern "C" fn screen_erase_to_end(rec: &mut [u8]) -> u32
    ensures { Answers (changing EraseToEnd rec.old) result rec.new }
{
    changing::screen_erase_to_end(rec)
}

#[unsafe(no_mangle)]
pub extern "C" fn screen_escape_line(rec: &mut [u8]) -> u32
    ensures { Answers (changing EscapeLine rec.old) result rec.new }
{
    changing::screen_escape_line(rec)
}

#[unsafe(no_mangle)]
pub extern "C" fn screen_tab(rec: &mut [u8]) -> u32
    ensures { Answers (changing Tab rec.old) result rec.new }
{
    changing::screen_tab(rec)
}

#[unsafe(no_mangle)]
pub extern "C" fn screen_ctrl_enter(rec: &mut [u8]) -> u32
    ensures { Answers (changing CtrlEnter rec.old) result rec.new }
{
    changing::screen_ctrl_enter(rec)
}

#[unsafe(no_mangle)]
pub extern "C" fn screen_take_logical_line(rec: &mut [u8], out: &mut [u8]) -> u32
    ensures { Submits (changing (TakeLogicalLine out.old) rec.old) result rec.new out.new }
{
    changing::screen_take_logical_line(rec, out)
}

#[unsafe(no_mangle)]
pub extern "C" fn screen_break_line(rec: &mut [u8]) -> u32
    ensures { Answers (changing BreakLine rec.old) result rec.new }
{
    changing::screen_break_line(rec)
}

#[unsafe(no_mangle)]
pub extern "C" fn screen_move_left(rec: &mut [u8]) -> u32
    ensures { Answers (changing MoveLeft rec.old) result rec.new }
{
    changing::screen_move_left(rec)
}

#[unsafe(no_mangle)]
pub extern "C" fn screen_move_right(rec: &mut [u8]) -> u32
    ensures { Answers (changing MoveRight rec.old) result rec.new }
{
    changing::screen_move_right(rec)
}

#[unsafe(no_mangle)]
pub extern "C" fn screen_move_up(rec: &mut [u8]) -> u32
    ensures { Answers (changing MoveUp rec.old) result rec.new }
{
    changing::screen_move_up(rec)
}

#[unsafe(no_mangle)]
pub extern "C" fn screen_move_down(rec: &mut [u8]) -> u32
    ensures { Answers (changing MoveDown rec.old) result rec.new }
{
    changing::screen_move_down(rec)
}

#[unsafe(no_mangle)]
pub extern "C" fn screen_home(rec: &mut [u8]) -> u32
    ensures { Answers (changing Home rec.old) result rec.new }
{
    changing::screen_home(rec)
}

#[unsafe(no_mangle)]
pub extern "C" fn screen_word_left(rec: &mut [u8]) -> u32
    ensures { Answers (changing WordLeft rec.old) result rec.new }
{
    changing::screen_word_left(rec)
}

#[unsafe(no_mangle)]
pub extern "C" fn screen_word_right(rec: &mut [u8]) -> u32
    ensures { Answers (changing WordRight rec.old) result rec.new }
{
    changing::screen_word_right(rec)
}

#[unsafe(no_mangle)]
pub extern "C" fn screen_end_of_line(rec: &mut [u8]) -> u32
    ensures { Answers (changing EndOfLine rec.old) result rec.new }
{
    changing::screen_end_of_line(rec)
}

#[unsafe(no_mangle)]
pub extern "C" fn screen_clear(rec: &mut [u8]) -> u32
    ensures { Answers (changing Clear rec.old) result rec.new }
{
    changing::screen_clear(rec)
}

#[unsafe(no_mangle)]
pub extern "C" fn screen_set_width(rec: &mut [u8], width: u32) -> u32
    ensures { Answers (changing (SetWidth width) rec.old) result rec.new }
{
    changing::screen_set_width(rec, width)
}

#[unsafe(no_mangle)]
pub extern "C" fn screen_set_cursor(rec: &mut [u8], row: u32, col: u32) -> u32
    ensures { Answers (changing (SetCursor row col) rec.old) result rec.new }
{
    changing::screen_set_cursor(rec, row, col)
}

#[unsafe(no_mangle)]
pub extern "C" fn screen_set_insert(rec: &mut [u8], on: u32) -> u32
    ensures { Answers (changing (SetInsert on) rec.old) result rec.new }
{
    changing::screen_set_insert(rec, on)
}

#[unsafe(no_mangle)]
pub extern "C" fn screen_set_attr(rec: &mut [u8], attr: u32) -> u32
    ensures { Answers (changing (SetAttr attr) rec.old) result rec.new }
{
    changing::screen_set_attr(rec, attr)
}

#[unsafe(no_mangle)]
pub extern "C" fn screen_set_keys_on(rec: &mut [u8], on: u32) -> u32
    ensures { Answers (changing (SetKeysOn on) rec.old) result rec.new }
{
    changing::screen_set_keys_on(rec, on)
}
