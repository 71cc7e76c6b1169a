// The tree of tables, walked in place: one table, and the trail of the entries that were filled to come to it.
#![tactic(auto)]

pub mod bars;
pub mod choices;
mod trail;
pub mod walk;

#[cfg(test)]
mod tests {
    use crate::bars::Bars;
    use crate::walk::{Place, Walk};
    use controller::entry::Entry;
    use std::test::Fail;

    const AT: Place = Place {
        memory: 0,
        observation: 0,
    };

    #[test]
    fn the_children_are_stop_and_then_the_moves(rt: HostRuntime) -> Result<(), Fail> {
        let bars = Bars::none();
        let mut walk = Walk::root(1, 2, 1);
        assert_eq!(rt; walk.table.entry(AT), Entry::Blank);
        assert_eq!(rt; walk.descend(AT), true);
        assert_eq!(rt; walk.table.entry(AT), Entry::Stop);
        assert_eq!(rt; walk.retreat(&bars), true);
        assert_eq!(rt; walk.table.entry(AT), Entry::Move { action: 0, next: 0 });
        assert_eq!(rt; walk.retreat(&bars), true);
        assert_eq!(rt; walk.table.entry(AT), Entry::Move { action: 1, next: 0 });
        assert_eq!(rt; walk.retreat(&bars), false);
        assert_eq!(rt; walk.table.entry(AT), Entry::Blank);
        Ok(())
    }

    #[test]
    fn a_barred_action_is_no_child(rt: HostRuntime) -> Result<(), Fail> {
        let mut bars = Bars::none();
        bars.add(0, 0);
        let mut walk = Walk::root(1, 2, 1);
        assert_eq!(rt; walk.descend(AT), true);
        assert_eq!(rt; walk.retreat(&bars), true);
        assert_eq!(rt; walk.table.entry(AT), Entry::Move { action: 1, next: 0 });
        assert_eq!(rt; walk.retreat(&bars), false);
        Ok(())
    }
}
