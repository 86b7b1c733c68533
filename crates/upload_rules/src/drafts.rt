//! Open drafts in a list. A draft's number is its index there, and a free place is reused.
ghost use Rattle.std.specs.Prelude.{◌≡◌, ◌≤◌, ◌<◌, ℕ, true, length, IfOk, OnErr, Some, None, slice_set};
ghost use Rattle.upload_rules.specs.Drafts.{IsPlaced, draft_at};
ghost use Rattle.upload_rules.specs.World.{is_there};

use std::alloc::AllocError;

// The least free number.
fn free_number<T: Drop>(drafts: &[Option<T>]) -> usize
    ensures free { draft_at drafts.now result ≡ None }
    ensures least { (d : ℕ) → d < result → is_there (draft_at drafts.now d) ≡ true }
    ensures few { result ≤ length drafts.now }
{
    for number in 0..drafts.len() {
        if drafts[number].is_none() {
            return number;
        }
    }
    drafts.len()
}

/// Puts a draft at the least free number, which it returns.
///
/// # Errors
///
/// `AllocError`, with the list unchanged.
pub fn placed<T: Drop>(drafts: &mut Vec<Option<T>>, draft: T) -> Result<usize, AllocError>
    ensures ok { IfOk result (λ number. IsPlaced drafts.old.items draft number drafts.new.items) }
    ensures err { OnErr result (drafts.new.items ≡ drafts.old.items) }
{
    let number = free_number(drafts);
    if number < drafts.len() {
        drafts[number] = Some(draft);
    } else {
        drafts.push(Some(draft))?;
    }
    Ok(number)
}

/// Takes out the draft of this number.
pub fn taken<T: Drop>(drafts: &mut Vec<Option<T>>, number: usize) -> Option<T>
    ensures taken { result ≡ draft_at drafts.old.items number }
    ensures after { drafts.new.items ≡ slice_set drafts.old.items number None }
{
    drafts.get_mut(number)?.take()
}

/// Puts back a draft that was taken out.
pub fn put_back<T: Drop>(drafts: &mut Vec<Option<T>>, number: usize, draft: T)
    ensures { drafts.new.items ≡ slice_set drafts.old.items number (Some draft) }
{
    if let Some(free) = drafts.get_mut(number) {
        *free = Some(draft);
    }
}
