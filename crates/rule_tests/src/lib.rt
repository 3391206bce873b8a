//! Rows that are a rule and rows that are none, beside the proofs.
#![tactic(auto)]

#[cfg(test)]
mod tests {
    use rule::{BinaryOperator, Fault, Layer, Refusal, Row, Rule, UnaryOperator};
    use std::alloc::AllocError;

    // The number of the refusal, or 0, for the first `count` rows over so many signals.
    fn answer(rows: &[Row], count: usize, signals: usize) -> u8 {
        let mut rule = Rule::idle();
        match rule.take_up(rows, count, signals) {
            Ok(()) => 0,
            Err(fault) => fault.refusal.code(),
        }
    }

    // How many rows and signals a rule has, and how many rows remember, once the rows are taken up over two signals and
    // then refused over one.
    fn kept(rows: &[Row]) -> (usize, usize, usize) {
        let mut rule = Rule::idle();
        let _ = rule.take_up(rows, rows.len(), 2);
        let _ = rule.take_up(rows, rows.len(), 1);
        (rule.rows().len(), rule.signals(), rule.remembering())
    }

    #[test]
    fn fit_rows_are_taken_up(rt: HostRuntime) {
        let rows = [
            Row::Signal(1),
            Row::Unary(UnaryOperator::Once, 0),
            Row::Unary(UnaryOperator::Not, 1),
            Row::Binary(BinaryOperator::Since, 2, 0),
            Row::Binary(BinaryOperator::WeakSince, 3, 3),
        ];
        let idle = Rule::idle();
        assert_eq!(rt;
            (idle.rows().len(), idle.signals(), idle.remembering()),
            (1, 1, 0)
        );
        assert_eq!(rt; kept(&rows), (5, 2, 3), "a refusal keeps the rule");
    }

    #[test]
    fn unfit_rows_are_refused(rt: HostRuntime) {
        let own = [Row::Signal(0), Row::Unary(UnaryOperator::Not, 1)];
        let late = [
            Row::Signal(0),
            Row::Binary(BinaryOperator::And, 0, 2),
            Row::Signal(0),
        ];
        let many = [Row::Constant(false); 385];
        assert_eq!(rt; answer(&own, 1, 1), 0);
        assert_eq!(rt; answer(&own, 3, 1), 1, "too few rows are lent");
        assert_eq!(rt; answer(&own, 3, 0), 1, "1 comes before 9");
        assert_eq!(rt; answer(&own, 2, 1), 9, "a row that rests on itself");
        assert_eq!(rt; answer(&late, 3, 1), 9, "a row that rests on a later one");
        assert_eq!(rt; answer(&own, 0, 1), 9, "no row");
        assert_eq!(rt; answer(&own, 1, 0), 9, "no signal");
        assert_eq!(rt; answer(&own, 1, 17), 9, "seventeen signals");
        assert_eq!(rt; answer(&many, 384, 1), 0);
        assert_eq!(rt; answer(&many, 385, 1), 9);
    }

    #[test]
    fn rows_are_made_a_rule_or_refused(rt: HostRuntime) {
        let rows = [Row::Signal(1), Row::Unary(UnaryOperator::Once, 0)];
        assert!(rt; Rule::new(&rows, 2).is_ok());
        assert_eq!(rt;
            Rule::new(&rows, 1).err(),
            Some(Fault::from(Refusal::UnfitRows))
        );
        assert_eq!(rt;
            Rule::new(&[], 1).err(),
            Some(Fault::from(Refusal::UnfitRows))
        );
    }

    #[test]
    fn rows_and_faults_are_written_out(rt: HostRuntime) -> Result<(), AllocError> {
        let heap = rt.alloc();
        assert_eq!(rt; Row::Constant(true).to_string(heap)?.as_str(), "const yes");
        assert_eq!(rt; Row::Signal(12).to_string(heap)?.as_str(), "signal 12");
        assert_eq!(rt;
            Row::Unary(UnaryOperator::Not, 3).to_string(heap)?.as_str(),
            "! 3"
        );
        assert_eq!(rt;
            Row::Binary(BinaryOperator::Iff, 2, 5)
                .to_string(heap)?
                .as_str(),
            "<-> 2 5"
        );
        assert_eq!(rt; Layer::Letters.to_string(heap)?.as_str(), "letters");
        assert_eq!(rt;
            Fault::at(Refusal::OutOfPlace, 9).to_string(heap)?.as_str(),
            "refused 4 at 9 in grammar"
        );
        assert_eq!(rt;
            Refusal::UndeclaredName.to_string(heap)?.as_str(),
            "This name is not one of those before the colon."
        );
        Ok(())
    }
}
