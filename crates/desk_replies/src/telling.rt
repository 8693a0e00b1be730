//! What is told of the desk.
ghost use Rattle.std.specs.Prelude.{◌≡◌, ◌+◌, ◌*◌, ◌≤◌, ◌++◌, [], ◌∷◌, OnOk, length, map, flat_map};
ghost use Rattle.std.specs.Option.{option_copied};
ghost use Rattle.arrayvec.specs.ArrayString.{array_string_len};
ghost use Rattle.bridge_config.specs.ConfigValue.{pair_of};
ghost use Rattle.line_text.specs.Lines.{lines_text};
ghost use Rattle.desk_replies.specs.Told.{notice_lines, end_of_clock, clock_lines, call_line, call_lines, all_call_lines, concerns, now_line, named_lines, kept_lines, all_disk_lines, disk_lines, standing_lines, standing_text};

use crate::desk::{Desk, RoundClock, TableCall};
use crate::kept::KeptOn;
use crate::own_table::push_own;
use crate::plain_text::PlainText;
use crate::standing::{
    CALL_BYTES, CLOCK_BYTES, NOTICE_BYTES, STANDING_BYTES, StandingText, push_line, push_number,
    push_word,
};
use crate::text::{push_number as add_number, push_str, push_word as add_word};
use bridge_config::{Key, PairFields, player_name};
use bridge_session::Session;
use itoa::Buffer;
use line_text::number_text;
use std::alloc::AllocError;

/// Adds the director's notice, if there is one.
fn push_notice(text: &mut StandingText, desk: &Desk)
    requires { array_string_len text.old + NOTICE_BYTES ≤ STANDING_BYTES }
    ensures line { text.new.bytes ≡ text.old.bytes ++ lines_text (notice_lines desk.now.notice) }
    ensures room { array_string_len text.new ≤ array_string_len text.old + NOTICE_BYTES }
{
    if let Some(notice) = &desk.notice {
        push_line(text, "NOTICE", notice.as_str());
    }
}

/// The second of the server at which a clock ends.
fn end_of_clock(clock: RoundClock) -> u32
    ensures { result ≡ end_of_clock clock }
{
    clock.begun.saturating_add(60 * u32::from(clock.minutes))
}

/// Adds the end of the round's clock, if there is one.
fn push_clock(text: &mut StandingText, desk: &Desk)
    requires { array_string_len text.old + CLOCK_BYTES ≤ STANDING_BYTES }
    ensures line { text.new.bytes ≡ text.old.bytes ++ lines_text (clock_lines desk.now.clock) }
    ensures room { array_string_len text.new ≤ array_string_len text.old + CLOCK_BYTES }
{
    if let Some(clock) = desk.clock {
        push_line(text, "CLOCK", number_text(end_of_clock(clock)).as_str());
    }
}

/// Adds the line of a call.
fn push_call(text: &mut StandingText, pairs: &[PairFields], call: &TableCall)
    requires { array_string_len text.old + CALL_BYTES ≤ STANDING_BYTES }
    ensures line { text.new.bytes ≡ text.old.bytes ++ lines_text (call_line (map pair_of pairs.now) call.now ∷ []) }
    ensures room { array_string_len text.new ≤ array_string_len text.old + CALL_BYTES }
{
    text.push_str("CALL");
    push_number(text, u32::from(call.table));
    push_number(text, call.since);
    push_number(text, u32::from(call.player.pair));
    push_word(
        text,
        player_name(pairs, call.player.pair, call.player.first),
    );
    push_word(text, call.text.as_str());
    text.push_str("\n");
}

/// Adds the line of a call, if there is one.
pub(crate) fn push_call_if(text: &mut StandingText, pairs: &[PairFields], call: Option<&TableCall>)
    requires { array_string_len text.old + CALL_BYTES ≤ STANDING_BYTES }
    ensures line { text.new.bytes ≡ text.old.bytes ++ lines_text (call_lines (map pair_of pairs.now) (option_copied call.entry)) }
    ensures room { array_string_len text.new ≤ array_string_len text.old + CALL_BYTES }
{
    if let Some(call) = call {
        push_call(text, pairs, call);
    }
}

/// Adds the line of the call of a table, if it has called.
fn push_of_table(text: &mut StandingText, pairs: &[PairFields], call: &Option<TableCall>)
    requires { array_string_len text.old + CALL_BYTES ≤ STANDING_BYTES }
    ensures line { text.new.bytes ≡ text.old.bytes ++ lines_text (call_lines (map pair_of pairs.now) call.now) }
    ensures room { array_string_len text.new ≤ array_string_len text.old + CALL_BYTES }
{
    push_call_if(text, pairs, call.as_ref());
}

/// Adds calls, by table.
fn push_each(text: &mut StandingText, pairs: &[PairFields], calls: &[Option<TableCall>])
    requires few { length calls.now ≤ 12 }
    requires room { array_string_len text.old + 12 * CALL_BYTES ≤ STANDING_BYTES }
    ensures lines { text.new.bytes ≡ text.old.bytes ++ lines_text (flat_map (call_lines (map pair_of pairs.now)) calls.now) }
    ensures room { array_string_len text.new ≤ array_string_len text.old + 12 * CALL_BYTES }
{
    for call in calls {
        push_of_table(text, pairs, call);
    }
}

/// Adds the calls of all tables.
fn push_calls(text: &mut StandingText, session: &Session, desk: &Desk)
    requires { array_string_len text.old + 12 * CALL_BYTES ≤ STANDING_BYTES }
    ensures lines { text.new.bytes ≡ text.old.bytes ++ lines_text (all_call_lines session.now desk.now) }
    ensures room { array_string_len text.new ≤ array_string_len text.old + 12 * CALL_BYTES }
{
    push_each(text, &session.config().fields().pairs, desk.calls());
}

/// Adds what concerns the holder of a key.
fn push_concerns(text: &mut StandingText, session: &Session, desk: &Desk, key: Key)
    requires { array_string_len text.old + 12 * CALL_BYTES ≤ STANDING_BYTES }
    ensures lines { text.new.bytes ≡ text.old.bytes ++ lines_text (concerns session.now desk.now key.0) }
{
    if key == session.config().fields().director {
        push_calls(text, session, desk);
    } else {
        push_own(text, session, desk, key);
    }
}

/// The standing lines, as they are told to the holder of a key: the notice, the second at which the clock ends, and what concerns
/// him, which is the call of his table, what was said with the claim that he is shown there, and what was answered to it, or to
/// the director all calls. They take no memory.
pub fn standing_lines(session: &Session, desk: &Desk, key: Key) -> StandingText
    ensures { result.bytes ≡ lines_text (standing_lines session.now desk.now key.0) }
{
    let mut text = StandingText::new();
    push_notice(&mut text, desk);
    push_clock(&mut text, desk);
    push_concerns(&mut text, session, desk, key);
    text
}

/// Adds the line of the second.
fn push_now(text: &mut Vec<u8>, at: u32, ends: u32) -> Result<(), AllocError>
    ensures { OnOk result (text.new.items ≡ text.old.items ++ (now_line at ends ++ 10 ∷ [])) }
{
    push_str(text, "NOW")?;
    add_number(text, at)?;
    add_number(text, ends)?;
    push_str(text, "\n")
}

/// Adds the line of the disk, where its name can be shown.
fn push_named(text: &mut Vec<u8>, disk: &Option<PlainText>) -> Result<(), AllocError>
    ensures { OnOk result (text.new.items ≡ text.old.items ++ lines_text (named_lines disk.now)) }
{
    match disk {
        Some(name) => {
            push_str(text, "DISK")?;
            add_word(text, name.as_str())?;
            push_str(text, "\n")
        }
        None => Ok(()),
    }
}

/// Adds the line of what a disk has, where that is known.
fn push_kept(text: &mut Vec<u8>, kept: Option<KeptOn>) -> Result<(), AllocError>
    ensures { OnOk result (text.new.items ≡ text.old.items ++ lines_text (kept_lines kept)) }
{
    match kept {
        Some(kept) => {
            push_str(text, "KEPT")?;
            add_word(text, Buffer::new().format(kept.epoch))?;
            add_number(text, kept.records)?;
            push_str(text, "\n")
        }
        None => Ok(()),
    }
}

/// Adds the lines of the disks.
fn push_disks(text: &mut Vec<u8>, desk: &Desk) -> Result<(), AllocError>
    ensures { OnOk result (text.new.items ≡ text.old.items ++ lines_text (all_disk_lines desk.now)) }
{
    push_named(text, &desk.disk)?;
    push_kept(text, desk.kept.first)?;
    push_kept(text, desk.kept.second)
}

/// Adds the lines of the disks, where the key is the director's.
fn push_disk(text: &mut Vec<u8>, session: &Session, desk: &Desk, key: Key) -> Result<(), AllocError>
    ensures { OnOk result (text.new.items ≡ text.old.items ++ lines_text (disk_lines session.now desk.now key.0)) }
{
    if key == session.config().fields().director {
        push_disks(text, desk)
    } else {
        Ok(())
    }
}

/// Adds what is told to the holder of a key at a second.
pub(crate) fn push_standing(
    text: &mut Vec<u8>,
    session: &Session,
    desk: &Desk,
    at: u32,
    key: Key,
) -> Result<(), AllocError>
    ensures { OnOk result (text.new.items ≡ text.old.items ++ standing_text session.now desk.now at key.0) }
{
    push_str(text, "OK\n")?;
    push_now(text, at, desk.ends)?;
    push_disk(text, session, desk, key)?;
    push_str(text, standing_lines(session, desk, key).as_str())?;
    push_str(text, ".\n")
}
