// Examples of the numbers theory, one test to a claim. Rests on `refusal`, `theory` and `numbers`.
#![tactic(auto)]

#[cfg(test)]
mod tests {
    use numbers::{Comparison, Moment, Numbers, Term};
    use std::test::Fail;
    use theory::{Printable, Theory};

    fn term(coefficient: i32, variable: u8, moment: Moment) -> Term {
        Term {
            coefficient,
            variable,
            moment,
        }
    }

    #[test]
    fn a_variable_of_one_value_has_one_code(rt: HostRuntime) -> Result<(), Fail> {
        let t = Numbers::with_variable(b"t", 5, 5)?;
        let mut out = [0; 64];
        assert_eq!(rt; t.code_count(), 1);
        assert_eq!(rt; t.print(0, &mut out)?, 1);
        assert_eq!(rt; out[0], b'5');
        Ok(())
    }

    #[test]
    fn negative_values_are_printed_with_a_minus(rt: HostRuntime) -> Result<(), Fail> {
        let t = Numbers::with_variable(b"t", -3, 1)?;
        let mut out = [0; 64];
        assert_eq!(rt; t.code_count(), 5);
        assert_eq!(rt; t.print(0, &mut out)?, 2);
        assert!(rt; out[0] == b'-' && out[1] == b'3');
        assert_eq!(rt; t.print(4, &mut out)?, 1);
        assert!(rt; out[0] == b'1' && out[1] == b'3');
        Ok(())
    }

    #[test]
    fn eight_variables_stand_and_the_last_moves_fastest(rt: HostRuntime) -> Result<(), Fail> {
        let mut t = Numbers::with_variable(b"a", 0, 1)?;
        t.add_variable(b"b", 0, 1)?;
        t.add_variable(b"c", 0, 1)?;
        t.add_variable(b"d", 0, 1)?;
        t.add_variable(b"e", 0, 1)?;
        t.add_variable(b"f", 0, 1)?;
        t.add_variable(b"g", 0, 1)?;
        assert!(rt; t.add_variable(b"a", 0, 1).is_err());
        t.add_variable(b"h", 0, 1)?;
        assert!(rt; t.add_variable(b"i", 0, 0).is_err());
        assert_eq!(rt; t.code_count(), 256);
        let mut out = [0; 64];
        assert_eq!(rt; t.print(1, &mut out)?, 15);
        assert!(rt; out[0] == b'0' && out[12] == b'0' && out[14] == b'1');
        Ok(())
    }

    #[test]
    fn a_coefficient_of_zero_still_marks_its_atom(rt: HostRuntime) -> Result<(), Fail> {
        let mut t = Numbers::with_variable(b"t", 0, 2)?;
        t.add_atom(&[term(0, 0, Moment::Next)], Comparison::AtMost, 0)?;
        assert_eq!(rt; t.holds(0, 1, Some(2))?, true);
        assert_eq!(rt; t.holds(0, 1, None)?, false);
        Ok(())
    }

    #[test]
    fn sums_reach_both_ends_of_their_range(rt: HostRuntime) -> Result<(), Fail> {
        let mut t = Numbers::with_variable(b"t", 10_000, 10_000)?;
        let most = [term(1_000, 0, Moment::Now); 4];
        let least = [term(-1_000, 0, Moment::Now); 4];
        t.add_atom(&most, Comparison::Equal, 40_000_000)?;
        t.add_atom(&least, Comparison::Equal, -40_000_000)?;
        t.add_atom(&least, Comparison::Less, -40_000_000)?;
        assert!(rt; t.add_atom(&most, Comparison::Equal, 40_000_001).is_err());
        assert_eq!(rt; t.holds(0, 0, None)?, true);
        assert_eq!(rt; t.holds(1, 0, None)?, true);
        assert_eq!(rt; t.holds(2, 0, None)?, false);
        Ok(())
    }

    #[test]
    fn marks_decide_at_the_last_visit(rt: HostRuntime) -> Result<(), Fail> {
        let mut t = Numbers::with_variable(b"t", 0, 2)?;
        t.add_atom(
            &[term(1, 0, Moment::Next), term(-1, 0, Moment::Now)],
            Comparison::Equal,
            1,
        )?;
        t.add_atom(
            &[term(1, 0, Moment::WeakNext), term(-1, 0, Moment::Now)],
            Comparison::Equal,
            1,
        )?;
        t.add_atom(
            &[term(1, 0, Moment::WeakNext), term(1, 0, Moment::Next)],
            Comparison::Less,
            9,
        )?;
        t.add_atom(&[term(1, 0, Moment::Now)], Comparison::Equal, 2)?;
        assert_eq!(rt; t.holds(0, 0, Some(1))?, true);
        assert_eq!(rt; t.holds(0, 0, None)?, false);
        assert_eq!(rt; t.holds(1, 0, Some(0))?, false);
        assert_eq!(rt; t.holds(1, 0, None)?, true);
        assert_eq!(rt; t.holds(2, 0, Some(2))?, true);
        assert_eq!(rt; t.holds(2, 0, None)?, false);
        assert_eq!(rt; t.holds(3, 2, None)?, true);
        assert!(rt; t.holds(4, 0, None).is_err());
        Ok(())
    }
}
