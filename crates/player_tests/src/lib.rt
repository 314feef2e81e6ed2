//! The player at work on a link map, with the plan of a plant of four switches.
#![tactic(auto)]

#[cfg(test)]
mod tests {
    use fabrics::{Fabric, LinkMap};
    use faults::{Fault, Layer, PlayerFault};
    use player::{Between, Kept, Plan, Steady, lay};
    use std::test::Fail;

    static START: [u32; 3] = [1, 2, 3];

    static ENTRIES: [(u32, u32); 5] = [(3, 4), (2, 3), (0, 0), (3, 2), (1, 3)];

    // The plan of the four-switch plant.
    fn plant() -> Plan<'static, 'static> {
        Plan {
            n: 4,
            m: 5,
            k: 5,
            start: &START,
            entries: &ENTRIES,
        }
    }

    // A fault as it is reported, by its number, as documents have it.
    fn told(layer: Layer, code: u32, place: u32) -> Fault {
        Fault { layer, code, place }
    }

    // The fabric's own fault behind a player's, or the player's.
    fn behind(fault: PlayerFault) -> Fault {
        match fault {
            PlayerFault::Refused(fabric) => Fault::from(fabric),
            _ => Fault::from(fault),
        }
    }

    // Which of the links 1 to 5 carry.
    fn carrying(map: &LinkMap) -> [bool; 5] {
        [1, 2, 3, 4, 5].map(|link| map.look(link) == Ok(true))
    }

    // Lets the player of a refusal go, and tells the fault.
    fn ended<P, T: Drop, E: FnOnce(P) -> T>(kept: Kept<P>, end: E) -> PlayerFault
        requires { E.IsAlwaysCallable end }
    {
        let Kept { player, fault } = kept;
        end(player);
        fault
    }

    fn joined(player: Between, map: &mut LinkMap) -> Result<Steady, PlayerFault> {
        player
            .join(map)
            .map_err(|kept| ended(kept, Between::abandon))
    }

    // The second half of a change whose first half, forward or backward, was this.
    fn changed(
        departure: Result<Between, Kept<Steady>>,
        map: &mut LinkMap,
    ) -> Result<Steady, PlayerFault> {
        joined(departure.map_err(|kept| ended(kept, Steady::finish))?, map)
    }

    // Lays a plan on a link map, plays so many changes forward and then back, and tells the last moment.
    fn played(
        plan: &Plan,
        map: &mut LinkMap,
        forwards: u32,
        backwards: u32,
    ) -> Result<u32, PlayerFault> {
        let mut player = lay(plan, map)?;
        for _ in 0..forwards {
            player = changed(player.forward(plan, map), map)?;
        }
        for _ in 0..backwards {
            player = changed(player.backward(plan, map), map)?;
        }
        Ok(player.finish())
    }

    // What carries in the plant after so many changes forward and then back, if these come to that moment; else a fault that no
    // test expects.
    fn after(forwards: u32, backwards: u32, moment: u32) -> Result<[bool; 5], Fault> {
        let mut bytes = [0u8; 5];
        let mut map = LinkMap::blank(5, &mut bytes);
        match played(&plant(), &mut map, forwards, backwards) {
            Ok(t) if t == moment => Ok(carrying(&map)),
            Ok(t) => Err(told(Layer::Player, 0, t)),
            Err(fault) => Err(Fault::from(fault)),
        }
    }

    #[test]
    fn forward_to_the_end(rt: HostRuntime) -> Result<(), Fail> {
        assert_eq!(rt; after(0, 0, 0)?, [true, true, true, false, false]);
        assert_eq!(rt; after(1, 0, 1)?, [true, true, false, true, false]);
        assert_eq!(rt; after(2, 0, 2)?, [true, false, true, true, false]);
        assert_eq!(rt; after(3, 0, 3)?, [true, false, true, true, false]);
        assert_eq!(rt; after(4, 0, 4)?, [true, true, false, true, false]);
        assert_eq!(rt; after(5, 0, 5)?, [false, true, true, true, false]);
        Ok(())
    }

    #[test]
    fn and_back(rt: HostRuntime) -> Result<(), Fail> {
        assert_eq!(rt; after(5, 1, 4)?, [true, true, false, true, false]);
        assert_eq!(rt; after(5, 2, 3)?, [true, false, true, true, false]);
        assert_eq!(rt; after(5, 3, 2)?, [true, false, true, true, false]);
        assert_eq!(rt; after(5, 4, 1)?, [true, true, false, true, false]);
        assert_eq!(rt; after(5, 5, 0)?, [true, true, true, false, false]);
        Ok(())
    }

    // The fault of playing a plan on a blank map of so many links, with the fabric's behind it. A grant that no test expects is a
    // fault that no test expects.
    fn refusal(plan: &Plan, m: u32, forwards: u32, backwards: u32) -> (Fault, Fault) {
        let mut bytes = [0u8; 8];
        let mut map = LinkMap::blank(m, &mut bytes);
        match played(plan, &mut map, forwards, backwards) {
            Ok(t) => (told(Layer::Player, 0, t), told(Layer::Player, 0, t)),
            Err(fault) => (Fault::from(fault), behind(fault)),
        }
    }

    #[test]
    fn no_entry_beyond_the_ends(rt: HostRuntime) {
        assert_eq!(rt; refusal(&plant(), 5, 6, 0).0, told(Layer::Player, 32, 5));
        assert_eq!(rt; refusal(&plant(), 5, 3, 4).0, told(Layer::Player, 32, 0));
    }

    #[test]
    fn other_sizes_and_short_tables(rt: HostRuntime) {
        let plan = plant();
        assert_eq!(rt; refusal(&plan, 4, 0, 0).0, told(Layer::Player, 30, 0));
        assert_eq!(rt;
            refusal(&Plan { n: 0, ..plan }, 5, 0, 0).0,
            told(Layer::Player, 34, 0)
        );
        assert_eq!(rt;
            refusal(&Plan { n: 5, ..plan }, 5, 0, 0).0,
            told(Layer::Player, 34, 0)
        );
        assert_eq!(rt;
            refusal(&Plan { k: 6, ..plan }, 5, 0, 0).0,
            told(Layer::Player, 34, 0)
        );
    }

    // Lays the plant's plan on a map that carries one link, and tells the fault and what carries then. A grant, which no test
    // expects, is a fault that no test expects.
    fn laid_over(link: u32) -> Result<(Fault, [bool; 5]), Fault> {
        let mut bytes = [0u8; 5];
        let mut map = LinkMap::blank(5, &mut bytes);
        map.enable(link)?;
        match lay(&plant(), &mut map) {
            Ok(player) => Err(told(Layer::Player, 0, player.finish())),
            Err(fault) => Ok((Fault::from(fault), carrying(&map))),
        }
    }

    #[test]
    fn neither_blank_nor_the_start_list(rt: HostRuntime) -> Result<(), Fail> {
        let (fault, then) = laid_over(2)?;
        assert_eq!(rt; fault, told(Layer::Player, 31, 0));
        assert_eq!(rt; then, [false, true, false, false, false]);
        Ok(())
    }

    // Plays so many changes forward and then back, ends, and lays the plan again.
    fn laid_again(forwards: u32, backwards: u32) -> Result<u32, PlayerFault> {
        let mut bytes = [0u8; 5];
        let mut map = LinkMap::blank(5, &mut bytes);
        played(&plant(), &mut map, forwards, backwards)?;
        played(&plant(), &mut map, 0, 0)
    }

    #[test]
    fn laid_again_only_at_the_start(rt: HostRuntime) -> Result<(), Fail> {
        assert_eq!(rt; laid_again(2, 2)?, 0);
        assert_eq!(rt;
            laid_again(2, 0).map_err(Fault::from),
            Err(told(Layer::Player, 31, 0))
        );
        Ok(())
    }

    // A plan that nobody drew: what refuses it, and the fabric's fault behind.
    fn undrawn(start: &[u32], entries: &[(u32, u32)], forwards: u32) -> (Fault, Fault) {
        let plan = Plan {
            n: 4,
            m: 5,
            k: 1,
            start,
            entries,
        };
        refusal(&plan, 5, forwards, 0)
    }

    #[test]
    fn start_lists_that_nobody_drew(rt: HostRuntime) {
        let none = [(0, 0)];
        assert_eq!(rt;
            undrawn(&[1, 0, 3], &none, 0),
            (told(Layer::Player, 33, 0), told(Layer::Fabric, 40, 0))
        );
        assert_eq!(rt;
            undrawn(&[1, 6, 3], &none, 0),
            (told(Layer::Player, 33, 6), told(Layer::Fabric, 40, 6))
        );
        assert_eq!(rt;
            undrawn(&[1, 1, 6], &none, 0),
            (told(Layer::Player, 33, 1), told(Layer::Fabric, 41, 1))
        );
        assert_eq!(rt;
            undrawn(&[3, 1, 3], &none, 0),
            (told(Layer::Player, 33, 3), told(Layer::Fabric, 41, 3))
        );
        assert_eq!(rt;
            undrawn(&[5, 1, 3], &none, 1),
            (told(Layer::Player, 0, 1), told(Layer::Player, 0, 1))
        );
    }

    #[test]
    fn entries_that_nobody_drew(rt: HostRuntime) {
        let start = [1, 2, 3];
        assert_eq!(rt;
            undrawn(&start, &[(6, 4)], 1),
            (told(Layer::Player, 33, 6), told(Layer::Fabric, 40, 6))
        );
        assert_eq!(rt;
            undrawn(&start, &[(5, 4)], 1),
            (told(Layer::Player, 33, 5), told(Layer::Fabric, 42, 5))
        );
        assert_eq!(rt;
            undrawn(&start, &[(3, 9)], 1),
            (told(Layer::Player, 33, 9), told(Layer::Fabric, 40, 9))
        );
        assert_eq!(rt;
            undrawn(&start, &[(3, 2)], 1),
            (told(Layer::Player, 33, 2), told(Layer::Fabric, 41, 2))
        );
        assert_eq!(rt;
            undrawn(&start, &[(3, 3)], 1),
            (told(Layer::Player, 33, 3), told(Layer::Fabric, 41, 3))
        );
    }

    // Lays the plant's plan, makes the first change, and sets out on the second.
    fn set_out(map: &mut LinkMap) -> Result<Between, PlayerFault> {
        let plan = plant();
        let laid = lay(&plan, map)?;
        let player = changed(laid.forward(&plan, map), map)?;
        player
            .forward(&plan, map)
            .map_err(|kept| ended(kept, Steady::finish))
    }

    fn cancelled(map: &mut LinkMap) -> Result<u32, PlayerFault> {
        let steady = set_out(map)?
            .cancel(map)
            .map_err(|kept| ended(kept, Between::abandon))?;
        Ok(steady.finish())
    }

    #[test]
    fn cancel_comes_back(rt: HostRuntime) -> Result<(), Fail> {
        let mut bytes = [0u8; 5];
        let mut map = LinkMap::blank(5, &mut bytes);
        assert_eq!(rt; cancelled(&mut map)?, 1);
        assert_eq!(rt; carrying(&map), [true, true, false, true, false]);
        Ok(())
    }

    fn abandoned(map: &mut LinkMap) -> Result<(u32, u32), PlayerFault> {
        Ok(set_out(map)?.abandon())
    }

    #[test]
    fn abandon_tells_both_links(rt: HostRuntime) -> Result<(), Fail> {
        let mut bytes = [0u8; 5];
        let mut map = LinkMap::blank(5, &mut bytes);
        assert_eq!(rt; abandoned(&mut map)?, (2, 3));
        assert_eq!(rt; carrying(&map), [true, false, false, true, false]);
        Ok(())
    }

    // Someone enables the coming link meanwhile, so that the join is refused; the player handed back cancels.
    fn refused_join(map: &mut LinkMap) -> Result<(Fault, u32), PlayerFault> {
        let between = set_out(map)?;
        let _ = map.enable(3);
        match between.join(map) {
            Ok(steady) => Err(PlayerFault::NoEntry(steady.finish())),
            Err(kept) => {
                let Kept { player, fault } = kept;
                let steady = player
                    .cancel(map)
                    .map_err(|again| ended(again, Between::abandon))?;
                Ok((behind(fault), steady.finish()))
            }
        }
    }

    #[test]
    fn refused_join_stays_between(rt: HostRuntime) -> Result<(), Fail> {
        let mut bytes = [0u8; 5];
        let mut map = LinkMap::blank(5, &mut bytes);
        assert_eq!(rt; refused_join(&mut map)?, (told(Layer::Fabric, 41, 3), 1));
        assert_eq!(rt; carrying(&map), [true, true, true, true, false]);
        Ok(())
    }

    // Forward with a plan of another number of changes than the one that was laid.
    fn exchanged() -> Result<Fault, PlayerFault> {
        let mut bytes = [0u8; 5];
        let mut map = LinkMap::blank(5, &mut bytes);
        let plan = plant();
        let player = lay(&plan, &mut map)?;
        let other = Plan { k: 4, ..plan };
        match player.forward(&other, &mut map) {
            Ok(between) => {
                let (leaving, _) = between.abandon();
                Err(PlayerFault::NoEntry(leaving))
            }
            Err(kept) => Ok(Fault::from(ended(kept, Steady::finish))),
        }
    }

    #[test]
    fn another_plan_is_refused(rt: HostRuntime) -> Result<(), Fail> {
        assert_eq!(rt; exchanged()?, told(Layer::Player, 34, 0));
        Ok(())
    }
}
