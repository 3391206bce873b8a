//! Tests of the reports.
#![tactic(auto)]

#[cfg(test)]
mod tests {
    use report::{ReadText, check_text, list_rows};
    use rule::{BinaryOperator, Fault, Refusal, Row, UnaryOperator};
    use std::alloc::{AllocError, Global};
    use std::test::Fail;
    use text::{Counts, Span};

    fn refused(
        heap: Global,
        bytes: &[u8],
        refusal: Refusal,
        place: usize,
    ) -> Result<String, AllocError> {
        let reading = ReadText {
            text: bytes,
            outcome: Err(Fault::at(refusal, place)),
            rows: &[],
            names: &[],
        };
        reading.check_report(heap)
    }

    fn read(heap: Global, bytes: &[u8], counts: Counts) -> Result<String, AllocError> {
        let rows = [
            Row::Signal(0),
            Row::Unary(UnaryOperator::Once, 0),
            Row::Unary(UnaryOperator::Not, 1),
            Row::Binary(BinaryOperator::WeakSince, 2, 0),
        ];
        let names = [
            Span { start: 0, len: 3 },
            Span { start: 4, len: 4 },
            Span { start: 9, len: 100 },
        ];
        let reading = ReadText {
            text: bytes,
            outcome: Ok(counts),
            rows: &rows,
            names: &names,
        };
        reading.check_report(heap)
    }

    #[test]
    fn rows_of_each_kind(rt: HostRuntime) -> Result<(), Fail> {
        let rows = [
            Row::Signal(2),
            Row::Constant(true),
            Row::Constant(false),
            Row::Unary(UnaryOperator::Not, 0),
            Row::Unary(UnaryOperator::Yesterday, 1),
            Row::Unary(UnaryOperator::WeakYesterday, 2),
            Row::Unary(UnaryOperator::Once, 3),
            Row::Unary(UnaryOperator::Historically, 4),
            Row::Binary(BinaryOperator::And, 0, 1),
            Row::Binary(BinaryOperator::Or, 1, 2),
            Row::Binary(BinaryOperator::Implies, 10, 11),
            Row::Binary(BinaryOperator::Iff, 3, 4),
            Row::Binary(BinaryOperator::Xor, 4, 5),
            Row::Binary(BinaryOperator::Since, 2, 1),
            Row::Binary(BinaryOperator::WeakSince, 6, 7),
            Row::Signal(9),
        ];
        let reading = ReadText {
            text: b"",
            outcome: Ok(Counts { names: 3, rows: 15 }),
            rows: &rows,
            names: &[],
        };
        let report = reading.rows_report(rt.alloc())?;
        assert_eq!(rt;
            report.as_str(),
            "0: signal 2\n1: const yes\n2: const no\n3: ! 0\n4: Y 1\n5: Z 2\n6: O 3\n7: H 4\n8: & 0 1\n9: | 1 2\n\
             10: -> 10 11\n11: <-> 3 4\n12: ^ 4 5\n13: S 2 1\n14: W 6 7\n"
        );
        Ok(())
    }

    #[derive(Clone, Copy)]
    struct Reason {
        refusal: Refusal,
        report: &'static str,
    }

    #[test]
    fn each_refusal_has_its_line_and_sentence(rt: HostRuntime) -> Result<(), Fail> {
        let reasons = [
            Reason {
                refusal: Refusal::ShortStrip,
                report: "refused 1 at 1 in strip\nThe room for rows or names is too small; tell whoever keeps this program.\n",
            },
            Reason {
                refusal: Refusal::LongText,
                report: "refused 2 at 1 in text\nThe text is longer than 1024 bytes; shorten it or split it into several rules.\n",
            },
            Reason {
                refusal: Refusal::NoToken,
                report: "refused 3 at 1 in letters\na?b\n ^\nNo name and no sign of a rule begins here; correct or remove this character.\n",
            },
            Reason {
                refusal: Refusal::OutOfPlace,
                report: "refused 4 at 1 in grammar\na?b\n ^\nThe rule does not go on or end like this; check the colon, the brackets and the operators up to this place.\n",
            },
            Reason {
                refusal: Refusal::LongName,
                report: "refused 5 at 1 in letters\na?b\n ^\nThis name is longer than 12 characters; choose a shorter one.\n",
            },
            Reason {
                refusal: Refusal::RepeatedName,
                report: "refused 6 at 1 in grammar\na?b\n ^\nThis name already stands before the colon; name each signal once.\n",
            },
            Reason {
                refusal: Refusal::ManyNames,
                report: "refused 7 at 1 in grammar\na?b\n ^\nA rule has at most 16 signals; leave this one or another out.\n",
            },
            Reason {
                refusal: Refusal::UndeclaredName,
                report: "refused 8 at 1 in grammar\na?b\n ^\nThis name is not one of those before the colon.\n",
            },
            Reason {
                refusal: Refusal::UnfitRows,
                report: "refused 9 at 1 in rows\na?b\n ^\nThe rule has more than 64 parts, or parts that do not fit together; shorten it or split it.\n",
            },
            Reason {
                refusal: Refusal::ManySignals,
                report: "refused 10 at 1 in table\nA table needs a rule of at most 6 signals; use fewer of them.\n",
            },
            Reason {
                refusal: Refusal::ManyStates,
                report: "refused 11 at 1 in table\nA table has at most 256 states; make the rule remember less.\n",
            },
            Reason {
                refusal: Refusal::ReadingCount,
                report: "refused 12 at 1 in sample\nThe sample does not have one reading for each signal; give as many as there are names before the colon.\n",
            },
            Reason {
                refusal: Refusal::FullCharge,
                report: "refused 13 at 1 in charge\nThe charge has 1,000,000 samples already; begin a new one.\n",
            },
            Reason {
                refusal: Refusal::NoSample,
                report: "refused 14 at 1 in charge\nThe charge has no sample yet; a verdict needs at least one.\n",
            },
            Reason {
                refusal: Refusal::NotInTable,
                report: "refused 15 at 1 in table\nThe table has no such state or letter; make it again from its rule.\n",
            },
            Reason {
                refusal: Refusal::CutShort,
                report: "refused 16 at 1 in field\nThe log ends in the middle of a sample; copy the whole log again.\n",
            },
            Reason {
                refusal: Refusal::NoSuchSignal,
                report: "refused 17 at 1 in sample\nA sample has a reading of a signal that the rule does not have; check that log and rule belong together.\n",
            },
            Reason {
                refusal: Refusal::MissingReading,
                report: "refused 18 at 1 in sample\nA sample lacks the reading of a signal; this scale needs every reading.\n",
            },
            Reason {
                refusal: Refusal::UnfitField,
                report: "refused 19 at 1 in field\nA reading in the log is no value of this scale; check that log and scale belong together.\n",
            },
        ];
        for reason in reasons {
            let report = refused(rt.alloc(), b"a?b", reason.refusal, 1)?;
            assert_eq!(rt; report.as_str(), reason.report);
        }
        Ok(())
    }

    #[derive(Clone, Copy)]
    struct Pointed {
        bytes: &'static [u8],
        place: usize,
        report: &'static str,
    }

    #[test]
    fn a_caret_stands_under_the_place(rt: HostRuntime) -> Result<(), Fail> {
        let cases = [
            Pointed {
                bytes: b"ab c\nde\nfg",
                place: 0,
                report: "refused 8 at 0 in grammar\nab c\n^\n",
            },
            Pointed {
                bytes: b"ab c\nde\nfg",
                place: 3,
                report: "refused 8 at 3 in grammar\nab c\n   ^\n",
            },
            Pointed {
                bytes: b"ab c\nde\nfg",
                place: 4,
                report: "refused 8 at 4 in grammar\nab c\n    ^\n",
            },
            Pointed {
                bytes: b"ab c\nde\nfg",
                place: 5,
                report: "refused 8 at 5 in grammar\nde\n^\n",
            },
            Pointed {
                bytes: b"ab c\nde\nfg",
                place: 9,
                report: "refused 8 at 9 in grammar\nfg\n ^\n",
            },
            Pointed {
                bytes: b"ab c\nde\nfg",
                place: 10,
                report: "refused 8 at 10 in grammar\nfg\n  ^\n",
            },
            Pointed {
                bytes: b"ab c\nde\nfg",
                place: 99,
                report: "refused 8 at 99 in grammar\nfg\n  ^\n",
            },
            Pointed {
                bytes: b"ab\nde\n",
                place: 6,
                report: "refused 8 at 6 in grammar\nde\n  ^\n",
            },
            Pointed {
                bytes: b"ab\n\n",
                place: 4,
                report: "refused 8 at 4 in grammar\n\n^\n",
            },
            Pointed {
                bytes: b"",
                place: 0,
                report: "refused 8 at 0 in grammar\n\n^\n",
            },
            Pointed {
                bytes: b"\ta\xc3\xa4\x00~\x7fb",
                place: 7,
                report: "refused 8 at 7 in grammar\n a...~.b\n       ^\n",
            },
        ];
        for case in cases {
            let report = refused(rt.alloc(), case.bytes, Refusal::UndeclaredName, case.place)?;
            let mut expected = String::from_str(rt.alloc(), case.report)?;
            expected.push_str("This name is not one of those before the colon.\n")?;
            assert_eq!(rt; report.as_str(), expected.as_str());
        }
        Ok(())
    }

    #[test]
    fn a_rule_that_was_read(rt: HostRuntime) -> Result<(), Fail> {
        let heap = rt.alloc();
        let some = read(heap, b"hot door : hot", Counts { names: 2, rows: 3 })?;
        assert_eq!(rt;
            some.as_str(),
            "signal 0 hot\nsignal 1 door\nrows 3\nremember 1\n"
        );
        let none = read(heap, b"hot door : hot", Counts { names: 0, rows: 0 })?;
        assert_eq!(rt; none.as_str(), "rows 0\nremember 0\n");
        let all = read(heap, b"h\tt do", Counts { names: 9, rows: 9 })?;
        assert_eq!(rt;
            all.as_str(),
            "signal 0 h t\nsignal 1 do\nsignal 2 \nrows 4\nremember 2\n"
        );
        Ok(())
    }

    #[test]
    fn rows_of_a_refused_text(rt: HostRuntime) -> Result<(), Fail> {
        let reading = ReadText {
            text: b"hot",
            outcome: Err(Refusal::LongText.into()),
            rows: &[Row::Constant(true)],
            names: &[],
        };
        let report = reading.rows_report(rt.alloc())?;
        assert_eq!(rt;
            report.as_str(),
            "refused 2 at 0 in text\nThe text is longer than 1024 bytes; shorten it or split it into several rules.\n"
        );
        Ok(())
    }

    #[test]
    fn texts_from_bytes_to_report(rt: HostRuntime) -> Result<(), Fail> {
        let heap = rt.alloc();
        let text = b"hot door stamp : (stamp -> (!door S hot))\n";
        assert_eq!(rt;
            check_text(heap, text)?.as_str(),
            "signal 0 hot\nsignal 1 door\nsignal 2 stamp\nrows 6\nremember 1\n"
        );
        assert_eq!(rt;
            list_rows(heap, text)?.as_str(),
            "0: signal 2\n1: signal 1\n2: ! 1\n3: signal 0\n4: S 2 3\n5: -> 0 4\n"
        );
        assert_eq!(rt;
            check_text(heap, b"p :\n  q\n")?.as_str(),
            "refused 8 at 6 in grammar\n  q\n  ^\nThis name is not one of those before the colon.\n"
        );
        Ok(())
    }
}
