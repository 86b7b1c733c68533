//! A law about what a view shows. The function does nothing; its contract is the law.
ghost use Rattle.upload_rules.specs.Store.{Store};
ghost use Rattle.spool_pages.specs.View.{View};
ghost use Rattle.spool_catalog.specs.Shows.{Shows};
ghost use Rattle.gateway_outside.specs.InOrder.{IsInOrder};

/// The uploads that a view shows are in the order of their numbers, from 1 on. So what is promised of the lines and the
/// plan of uploads in order holds of those that an opening read, whatever the disk.
pub fn shown_in_order()
    ensures { (v : View) (m : Store) → Shows v m → IsInOrder m }
{}
