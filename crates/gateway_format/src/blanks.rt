//! Files that hold nothing but zeros.
ghost use Rattle.std.specs.Prelude.{◌≡◌, ◌≤◌, ◌+◌, IfOk, false, true};
ghost use Rattle.std.specs.List.{list_all};
ghost use Rattle.gateway_outside.specs.SpoolFiles.{OnlyRead};
ghost use Rattle.gateway_format.specs.Blanks.{IsBlank, IsBlankFrom, is_zero};

use spool_disk::{Disk, DiskFault};

// How many bytes are read at once.
const CHUNK: usize = 65536;

/// Whether a disk has no byte but zeros. Reading stops at the first part that has another.
pub fn is_blank<D: Disk>(disk: &mut D) -> Result<bool, DiskFault>
    ensures read { OnlyRead D.Disk disk.old disk.new }
    ensures yes { D.honest disk.old
        → IfOk result (λ blank. blank ≡ true → IsBlank (D.size disk.old) (D.current disk.old)) }
    ensures no { D.honest disk.old
        → IfOk result (λ blank. blank ≡ false → IsBlank (D.size disk.old) (D.current disk.old) → ⊥) }
{
    let len = disk.len();
    let mut at = 0;
    while at < len {
        let count = (len - at).min(CHUNK as u64);
        if !is_blank_from(disk, at, count as usize)? {
            return Ok(false);
        }
        at += count;
    }
    Ok(true)
}

// Whether a disk has so many zeros from `at` on.
fn is_blank_from<D: Disk>(disk: &mut D, at: u64, count: usize) -> Result<bool, DiskFault>
    requires few { count ≤ CHUNK }
    requires within { at + count ≤ D.size disk.old }
    ensures read { OnlyRead D.Disk disk.old disk.new }
    ensures yes { D.honest disk.old
        → IfOk result (λ blank. blank ≡ true → IsBlankFrom at count (D.current disk.old)) }
    ensures no { D.honest disk.old
        → IfOk result (λ blank. blank ≡ false → IsBlankFrom at count (D.current disk.old) → ⊥) }
{
    let mut buffer = [0; CHUNK];
    let bytes = &mut buffer[..count];
    disk.read(at, bytes)?;
    Ok(are_zeros(bytes))
}

// Whether there is no byte but zeros.
fn are_zeros(bytes: &[u8]) -> bool
    ensures { result ≡ list_all is_zero bytes.now }
{
    bytes.iter().all(|byte| is_zero(*byte))
}

fn is_zero(byte: u8) -> bool
    ensures { result ≡ is_zero byte }
{
    byte == 0
}
