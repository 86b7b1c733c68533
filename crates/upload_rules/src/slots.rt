//! The slots of a table, by ascending numbers.

ghost use Rattle.std.specs.Prelude.{◌<◌, ◌≤◌, length, MatchOption, IfSome};
ghost use Rattle.upload_rules.specs.Reading.{IsRead};
ghost use Rattle.upload_rules.specs.Slots.{numbers, IsRising, IsDivided, IsFirstAt, IsNowhere};

use crate::slot::Slot;

/// How many slots have numbers up to this one.
pub(crate) fn places_to(slots: &[Slot], number: u64) -> usize
    ensures within { result ≤ length slots.now }
    ensures divided { IsRising (numbers slots.now) → IsDivided (numbers slots.now) number result }
{
    slots.partition_point(|slot| slot.record.number <= number)
}

/// The place of this number.
pub(crate) fn place_of(slots: &[Slot], number: u64) -> Option<usize>
    ensures within { IfSome result (λ place. place < length slots.now) }
    ensures place { IsRising (numbers slots.now) → MatchOption result (IsNowhere (numbers slots.now) number)
        (IsFirstAt (numbers slots.now) number) }
{
    let place = places_to(slots, number).checked_sub(1)?;
    (slots[place].record.number == number).then_some(place)
}

/// Reads the text's bytes from `at` on, as many as there are and as fit, and returns their count.
pub(crate) fn read_from(text: &[u8], at: u64, buf: &mut [u8]) -> usize
    ensures { IsRead text.now at result buf.old buf.new }
{
    let from = text.len().min(at as usize);
    let rest = &text[from..];
    let count = rest.len().min(buf.len());
    buf[..count].copy_from_slice(&rest[..count]);
    count
}
