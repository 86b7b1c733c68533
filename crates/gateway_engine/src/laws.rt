//! A law about an opening and the run after it. The function does nothing; its contract is the law.
ghost use Rattle.std.specs.Prelude.{◌≤◌, ℕ, List};
ghost use Rattle.spool_disk.specs.Views.{Lasts};
ghost use Rattle.spool_image.specs.LeftOnly.{AllShow, LeftOnly, LeftOrShows};
ghost use Rattle.upload_rules.specs.Answers.{Among};
ghost use Rattle.upload_rules.specs.Store.{Store};
ghost use Rattle.tus_session.specs.Images.{AllAmong};
ghost use Rattle.gateway_engine.specs.RanOn.{LastsOver};

use spool_disk::Disk;

/// Let every image since a moment before an opening show one of some stores. This still holds after the opening, if the
/// store that was opened is one of them, and after the run over the opened spool, if each store after a change of the
/// run is one of them. So the promises of `Spool::open` (`lasts`, `shows`) and of `run_opened` (`runs`) are joined to
/// those of `run`.
pub fn runs_join<D: Disk>()
    ensures opened { (before opened : D) (n t : ℕ) (m : Store) (ms : List Store) → t ≤ D.moment before → Among m ms
        → LeftOnly D.Disk before n t ms → Lasts D.Disk before opened (LeftOrShows D.Disk before n m)
        → AllShow D.Disk opened n m → LeftOnly D.Disk opened n t ms }
    ensures ran { (before opened now : D) (n t : ℕ) (m : Store) (stores ms : List Store) → t ≤ D.moment before
        → Among m ms → AllAmong stores ms → LeftOnly D.Disk before n t ms
        → Lasts D.Disk before opened (LeftOrShows D.Disk before n m) → AllShow D.Disk opened n m
        → LastsOver D.Disk opened now n stores → LeftOnly D.Disk now n t ms }
{}
