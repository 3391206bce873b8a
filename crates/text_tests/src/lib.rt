//! Texts good and bad, beside the proofs of the reader.
#![tactic(auto)]

#[cfg(test)]
mod tests {
    use rule::{BinaryOperator, Row, UnaryOperator};
    use std::test::Fail;
    use text::{Span, read};

    // A text, and what reading it answers: 0 with the numbers of names and rows, or a refusal's number with its place.
    struct Case {
        text: &'static str,
        answer: (u8, usize, usize),
    }

    fn answer(text: &[u8]) -> (u8, usize, usize) {
        let mut rows = [Row::Constant(true); 64];
        let mut names = [Span { start: 7, len: 7 }; 16];
        match read(text, &mut rows, &mut names) {
            Ok(counts) => (0, counts.names, counts.rows),
            Err(fault) => (fault.refusal.code(), fault.place, fault.sample),
        }
    }

    const GOOD: [Case; 11] = [
        Case {
            text: "hot door stamp : (stamp -> (!door S hot))",
            answer: (0, 3, 6),
        },
        Case {
            text: "p:1",
            answer: (0, 1, 1),
        },
        Case {
            text: "\tp \n:\n 0 ",
            answer: (0, 1, 1),
        },
        Case {
            text: "p:(p<->1)",
            answer: (0, 1, 3),
        },
        Case {
            text: "p : ((p->p)^(p|p))",
            answer: (0, 1, 7),
        },
        Case {
            text: "p1 a_b : (p1 W a_b)",
            answer: (0, 2, 3),
        },
        Case {
            text: "p q : (pSq)",
            answer: (0, 2, 3),
        },
        Case {
            text: "p : YZOH!p",
            answer: (0, 1, 6),
        },
        Case {
            text: "abcdefghijkl : 1",
            answer: (0, 1, 1),
        },
        Case {
            text: "a b c d e f g h i j k l m n o p : p",
            answer: (0, 16, 1),
        },
        Case {
            text: "p : !!!!!!!!!!!!!!!!!!!!!!!!!!!!!!!!!!!!!!!!!!!!!!!!!!!!!!!!!!!!!!!p",
            answer: (0, 1, 64),
        },
    ];

    const BAD: [Case; 36] = [
        Case {
            text: "p : p?",
            answer: (3, 5, 0),
        },
        Case {
            text: "p : p#",
            answer: (3, 5, 0),
        },
        Case {
            text: "p : (p - p)",
            answer: (3, 7, 0),
        },
        Case {
            text: "p : (p <- p)",
            answer: (3, 7, 0),
        },
        Case {
            text: "p : (p > p)",
            answer: (3, 7, 0),
        },
        Case {
            text: "_p : 1",
            answer: (3, 0, 0),
        },
        Case {
            text: "p : 2",
            answer: (3, 4, 0),
        },
        Case {
            text: "p : X",
            answer: (3, 4, 0),
        },
        Case {
            text: "p\r: 1",
            answer: (3, 1, 0),
        },
        Case {
            text: "",
            answer: (4, 0, 0),
        },
        Case {
            text: "  \n",
            answer: (4, 3, 0),
        },
        Case {
            text: ": 1",
            answer: (4, 0, 0),
        },
        Case {
            text: "p",
            answer: (4, 1, 0),
        },
        Case {
            text: "p 1",
            answer: (4, 2, 0),
        },
        Case {
            text: "p :",
            answer: (4, 3, 0),
        },
        Case {
            text: "p : (p S",
            answer: (4, 8, 0),
        },
        Case {
            text: "p : p p",
            answer: (4, 6, 0),
        },
        Case {
            text: "p : (p)",
            answer: (4, 6, 0),
        },
        Case {
            text: "p : (p & p",
            answer: (4, 10, 0),
        },
        Case {
            text: "p : 10",
            answer: (4, 5, 0),
        },
        Case {
            text: "p : 1p",
            answer: (4, 5, 0),
        },
        Case {
            text: "p : )",
            answer: (4, 4, 0),
        },
        Case {
            text: "p : & p",
            answer: (4, 4, 0),
        },
        Case {
            text: "p : : p",
            answer: (4, 4, 0),
        },
        Case {
            text: "p : 1 abcdefghijklm",
            answer: (4, 6, 0),
        },
        Case {
            text: "abcdefghijklm : 1",
            answer: (5, 0, 0),
        },
        Case {
            text: "p : abcdefghijklm",
            answer: (5, 4, 0),
        },
        Case {
            text: "a b c d e f g h i j k l m n o p abcdefghijklm : 1",
            answer: (5, 32, 0),
        },
        Case {
            text: "p p : 1",
            answer: (6, 2, 0),
        },
        Case {
            text: "a b c d e f g h i j k l m n o p a : 1",
            answer: (6, 32, 0),
        },
        Case {
            text: "a b c d e f g h i j k l m n o p q : 1",
            answer: (7, 32, 0),
        },
        Case {
            text: "p : q",
            answer: (8, 4, 0),
        },
        Case {
            text: "p : (p & pq)",
            answer: (8, 9, 0),
        },
        Case {
            text: "p : !!!!!!!!!!!!!!!!!!!!!!!!!!!!!!!!!!!!!!!!!!!!!!!!!!!!!!!!!!!!!!!!p",
            answer: (9, 68, 0),
        },
        Case {
            text: "p : (!!!!!!!!!!!!!!!!!!!!!!!!!!!!!!!!!!!!!!!!!!!!!!!!!!!!!!!!!!!!!!!p & p)",
            answer: (9, 72, 0),
        },
        Case {
            text: "p : (!!!!!!!!!!!!!!!!!!!!!!!!!!!!!!!!!!!!!!!!!!!!!!!!!!!!!!!!!!!!!!!p & q)",
            answer: (8, 72, 0),
        },
    ];

    #[test]
    fn texts_that_are_read(rt: HostRuntime) {
        for case in GOOD.iter() {
            assert_eq!(rt; answer(case.text.as_bytes()), case.answer, "{}", case.text);
        }
    }

    #[test]
    fn texts_that_are_refused(rt: HostRuntime) {
        for case in BAD.iter() {
            assert_eq!(rt; answer(case.text.as_bytes()), case.answer, "{}", case.text);
        }
    }

    #[test]
    fn rows_come_inner_first(rt: HostRuntime) {
        let mut rows = [Row::Constant(true); 64];
        let mut names = [Span { start: 7, len: 7 }; 16];
        let text = b"hot door stamp : (stamp -> (!door S hot))";
        assert!(rt; read(text, &mut rows, &mut names).is_ok());
        assert_eq!(rt; rows[0], Row::Signal(2));
        assert_eq!(rt; rows[1], Row::Signal(1));
        assert_eq!(rt; rows[2], Row::Unary(UnaryOperator::Not, 1));
        assert_eq!(rt; rows[3], Row::Signal(0));
        assert_eq!(rt; rows[4], Row::Binary(BinaryOperator::Since, 2, 3));
        assert_eq!(rt; rows[5], Row::Binary(BinaryOperator::Implies, 0, 4));
        assert_eq!(rt; rows[6], Row::Constant(true), "a place that is not filled");
        assert_eq!(rt; names[1], Span { start: 4, len: 4 });
        assert_eq!(rt;
            names[3],
            Span { start: 7, len: 7 },
            "a place that is not filled"
        );
    }

    #[test]
    fn refused_texts_clear_the_strips(rt: HostRuntime) {
        let mut rows = [Row::Constant(true); 66];
        let mut names = [Span { start: 7, len: 7 }; 17];
        assert_eq!(rt; read(b"p : (p S", &mut rows, &mut names).is_ok(), false);
        assert_eq!(rt; rows[0], Row::Constant(false));
        assert_eq!(rt; rows[63], Row::Constant(false));
        assert_eq!(rt; rows[64], Row::Constant(true), "past the places for rows");
        assert_eq!(rt; names[0], Span { start: 0, len: 0 });
        assert_eq!(rt;
            names[16],
            Span { start: 7, len: 7 },
            "past the places for names"
        );
    }

    #[test]
    fn strips_and_length_come_first(rt: HostRuntime) -> Result<(), Fail> {
        let long = [b'?'; 1025];
        let mut rows = [Row::Constant(true); 64];
        let mut names = [Span { start: 7, len: 7 }; 16];
        assert_eq!(rt; answer(&long), (2, 0, 0));
        assert_eq!(rt; answer(&long[1..]), (3, 0, 0));
        match read(&long, &mut rows[0..63], &mut names) {
            Ok(_) => return Err(Fail::new("read into 63 places")),
            Err(fault) => assert_eq!(rt; (fault.refusal.code(), fault.place), (1, 0)),
        }
        assert_eq!(rt;
            rows[62],
            Row::Constant(false),
            "a short strip is cleared too"
        );
        assert_eq!(rt; rows[63], Row::Constant(true));
        assert_eq!(rt; names[15], Span { start: 0, len: 0 });
        Ok(())
    }
}
