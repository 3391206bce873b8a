//! The four scales on examples, beside their proofs.
#![tactic(auto)]

#[cfg(test)]
mod tests {
    use scale::{Lanes, Light, Margin, Scale, TwoWay, firm_value, lane_of};
    use std::alloc::AllocError;

    #[test]
    fn lights_are_ordered(rt: HostRuntime) {
        assert_eq!(rt; Light::No.join(Light::Unknown), Light::Unknown);
        assert_eq!(rt; Light::Unknown.join(Light::Yes), Light::Yes);
        assert_eq!(rt; Light::Yes.meet(Light::Unknown), Light::Unknown);
        assert_eq!(rt; Light::Unknown.meet(Light::No), Light::No);
        assert_eq!(rt; Light::Unknown.opposite(), Light::Unknown);
        assert_eq!(rt;
            Light::Unknown.join(Light::Unknown.opposite()),
            Light::Unknown,
            "no excluded middle"
        );
    }

    #[test]
    fn lanes_work_lane_by_lane(rt: HostRuntime) {
        let a = Lanes::from(0b1100);
        let b = Lanes::from(0b1010);
        assert_eq!(rt; a.join(b), Lanes::from(0b1110));
        assert_eq!(rt; a.meet(b), Lanes::from(0b1000));
        assert_eq!(rt; a.opposite().meet(Lanes::from(0xff)), Lanes::from(0xf3));
        assert_eq!(rt; lane_of(a, 2), Some(TwoWay::Yes));
        assert_eq!(rt; lane_of(a, 1), Some(TwoWay::No));
        assert_eq!(rt; lane_of(Lanes::yes(), 63), Some(TwoWay::Yes));
        assert_eq!(rt; lane_of(Lanes::yes(), 64), None);
    }

    fn margin(level: i16) -> Margin {
        Margin::try_from(level).unwrap_or(Margin::no())
    }

    #[test]
    fn margins_stay_within_bounds(rt: HostRuntime) {
        assert!(rt; Margin::try_from(30_000).is_ok());
        assert!(rt; Margin::try_from(-30_000).is_ok());
        assert!(rt; Margin::try_from(30_001).is_err());
        assert!(rt; Margin::try_from(-30_001).is_err());
        let five = margin(5);
        let two = margin(-2);
        assert_eq!(rt; five.join(two).level(), 5);
        assert_eq!(rt; five.meet(two).level(), -2);
        assert_eq!(rt; five.opposite().level(), -5);
        assert_eq!(rt; Margin::yes().opposite().level(), -30_000);
    }

    #[test]
    fn values_are_written_as_words_and_numbers(rt: HostRuntime) -> Result<(), AllocError> {
        let heap = rt.alloc();
        assert_eq!(rt; TwoWay::from(true).to_string(heap)?.as_str(), "yes");
        assert_eq!(rt; TwoWay::from(false).to_string(heap)?.as_str(), "no");
        assert_eq!(rt; Light::Unknown.to_string(heap)?.as_str(), "unknown");
        assert_eq!(rt; Lanes::from(10).to_string(heap)?.as_str(), "10");
        assert_eq!(rt; margin(-5).to_string(heap)?.as_str(), "-5");
        Ok(())
    }

    #[test]
    fn firm_values_keep_their_sense(rt: HostRuntime) {
        let light: Light = firm_value(TwoWay::Yes);
        let lanes: Lanes = firm_value(TwoWay::Yes);
        let margin: Margin = firm_value(TwoWay::No);
        assert_eq!(rt; light, Light::Yes);
        assert_eq!(rt; lanes, Lanes::from(u64::MAX));
        assert_eq!(rt; margin.level(), -30_000);
    }
}
