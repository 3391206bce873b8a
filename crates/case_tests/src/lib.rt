//! The worked cases, read from their texts and run through the naive evaluator.
#![tactic(auto)]

#[cfg(test)]
mod tests {
    use cases::{Case, Charge, worked_case, worked_cases};
    use evaluator::evaluate;
    use rule::{Row, Rule};
    use scale::{Lanes, Light, Margin, Scale, TwoWay};
    use std::test::Fail;
    use text::{Span, read};

    fn reads_as(text: &[u8], expected: &[Row]) -> bool {
        let mut rows = [Row::Constant(false); 64];
        let mut names = [Span { start: 0, len: 0 }; 16];
        match read(text, &mut rows, &mut names) {
            Ok(counts) => counts.rows == expected.len() && rows.starts_with(expected),
            Err(_) => false,
        }
    }

    // Whether the evaluator gives these values at the first samples.
    fn agrees<S: Scale + PartialEq + Drop>(
        rows: &[Row],
        signals: usize,
        readings: &[S],
        expected: &[S],
    ) -> bool {
        let mut rule = Rule::idle();
        if rule.take_up(rows, rows.len(), signals).is_err() {
            return false;
        }
        for t in 0..expected.len() {
            if evaluate(&rule, readings, t) != expected[t] {
                return false;
            }
        }
        true
    }

    // Reading number `place` of a charge, sample after sample, from its letters.
    fn at(letters: &[u64], signals: usize, place: usize) -> TwoWay {
        if signals == 0 || signals > 16 {
            return TwoWay::No;
        }
        match letters.get(place / signals) {
            Some(letter) if (*letter >> (place % signals)) & 1 == 1 => TwoWay::Yes,
            _ => TwoWay::No,
        }
    }

    fn two_way(rows: &[Row], signals: usize, letters: &[u64], expected: &[TwoWay]) -> bool {
        let readings = [
            at(letters, signals, 0),
            at(letters, signals, 1),
            at(letters, signals, 2),
            at(letters, signals, 3),
            at(letters, signals, 4),
            at(letters, signals, 5),
            at(letters, signals, 6),
            at(letters, signals, 7),
            at(letters, signals, 8),
            at(letters, signals, 9),
            at(letters, signals, 10),
            at(letters, signals, 11),
            at(letters, signals, 12),
            at(letters, signals, 13),
            at(letters, signals, 14),
        ];
        agrees(rows, signals, &readings, expected)
    }

    fn lanes_at(numbers: &[u64], t: usize) -> Lanes {
        Lanes::from(numbers.get(t).copied().unwrap_or(0))
    }

    fn lanes(rows: &[Row], readings: &[u64], expected: &[u64]) -> bool {
        let given = [lanes_at(readings, 0), lanes_at(readings, 1)];
        let wanted = [lanes_at(expected, 0), lanes_at(expected, 1)];
        expected.len() == 2 && agrees(rows, 1, &given, &wanted)
    }

    fn margin(level: Option<&i16>) -> Margin {
        Margin::try_from(level.copied().unwrap_or(0)).unwrap_or(Margin::no())
    }

    fn margins(rows: &[Row], readings: &[i16], expected: &[i16]) -> bool {
        let mut rule = Rule::idle();
        if rule.take_up(rows, rows.len(), 1).is_err() {
            return false;
        }
        let given = [margin(readings.first())];
        evaluate(&rule, &given, 0).level() == margin(expected.first()).level()
    }

    fn comes_out(case: &Case) -> bool {
        match case.charge {
            Charge::OnTwoWay {
                signals,
                letters,
                verdicts,
            } => two_way(case.rows, signals, letters, verdicts),
            Charge::OnLights { readings, values } => agrees(case.rows, 1, readings, values),
            Charge::OnLanes { readings, values } => lanes(case.rows, readings, values),
            Charge::OnMargins { readings, values } => margins(case.rows, readings, values),
        }
    }

    #[test]
    fn cases_come_out_by_the_evaluator(rt: HostRuntime) {
        assert_eq!(rt; worked_cases().len(), 10);
        for case in worked_cases() {
            assert!(rt; comes_out(case), "{}", case.text);
        }
    }

    #[test]
    fn texts_lay_the_rows(rt: HostRuntime) -> Result<(), Fail> {
        for k in 0..10 {
            let case = worked_case(k).ok_or("no such case")?;
            assert!(rt; reads_as(case.text.as_bytes(), case.rows), "{}", case.text);
        }
        assert!(rt; worked_case(10).is_none());
        Ok(())
    }
}
