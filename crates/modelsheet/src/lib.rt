// Model sheets: an environment written down as bytes, read and judged byte by byte.
#![tactic(auto)]

pub mod model;

#[cfg(test)]
mod tests {
    use crate::model::Model;
    use environment::Environment;
    use faults::{ChainFault, Fault, Head, SheetFault};
    use refusals::Refusal;
    use sets::StateSet;
    use std::test::Fail;

    // A shuttle of two places.
    const SHUTTLE: [u8; 39] = [
        77, 4, 2, 3, 3, 1, 0, 0, 0, 0, 0, 0, 0, 2, 0, 0, 0, 0, 0, 0, 0, 0, 0, 2, 2, 0, 1, 0, 1, 2,
        0, 3, 0, 3, 0, 0, 0, 1, 0,
    ];

    #[test]
    fn reads_the_shuttle(rt: HostRuntime) -> Result<(), Fail> {
        let model = Model::read(&SHUTTLE)?;
        assert_eq!(rt; model.outcomes(0, 1), StateSet::from(0b1000));
        assert_eq!(rt; model.outcomes(3, 0), StateSet::from(0b0010));
        assert_eq!(rt; model.outcomes(3, 1), StateSet::EMPTY);
        assert_eq!(rt; model.observation(3), 2);
        Ok(())
    }

    #[test]
    fn refuses_a_next_index_that_does_not_rise(rt: HostRuntime) -> Result<(), Fail> {
        let mut sheet = SHUTTLE;
        sheet[34] = 1;
        let fault = SheetFault::Chain(ChainFault {
            fault: Fault {
                refusal: Refusal::NotRising,
                byte: 34,
            },
            head: Head {
                state: 0,
                action: 1,
            },
        });
        match Model::read(&sheet) {
            Ok(_) => Err(Fail::new("accepted")),
            Err(found) => {
                assert_eq!(rt; found, fault);
                Ok(())
            },
        }
    }
}
