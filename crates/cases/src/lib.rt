// Worked examples of the writer, and of reading back what it wrote.
#![tactic(auto)]

#[cfg(test)]
mod tests {
    use entryfile::{Entry, Figures, NewAward, Sheet, Turn};
    use entrywriter::{write_entry, write_opening};
    use market::{Cause, Family, Fault, Kind, Month, Opening};
    use std::test::Fail;

    const FAMILIES: [Family; 1] = [Family {
        number: 1,
        figures_per_hour: 3,
    }];

    // one month of 2 days with factor 2.0, hours 13 to 16, one zone at 1000 cents, buy-out rate 50, pass mark 90
    fn opening() -> Result<Opening, Fault> {
        Opening::new(
            &[Month {
                days: 2,
                factor: 20,
            }],
            13,
            16,
            &[1000],
            50,
            90,
        )
    }

    fn award(reference: &[u8]) -> Turn<'_> {
        let entry = Entry::Award(NewAward {
            holder: 7,
            zone: 1,
            kind: Kind::Generation,
            quantity: 100,
            cleared_icap: 120,
            capability: 0,
            reference,
        });
        Turn { sender: 0, entry }
    }

    #[test]
    fn an_opening_takes_eleven_bytes(rt: HostRuntime) -> Result<(), Fail> {
        let mut buf = [9u8; 12];
        assert_eq!(rt; write_opening(&mut buf, &opening()?)?, 11);
        assert!(rt;
            buf == [1, 1, 2, 20, 13, 16, 1, 0xE8, 7, 50, 90, 9],
            "the last byte is as it was"
        );
        Ok(())
    }

    #[test]
    fn an_opening_out_of_range_is_refused(rt: HostRuntime) {
        let refused = Opening::new(
            &[Month {
                days: 24,
                factor: 20,
            }],
            13,
            16,
            &[1000],
            50,
            90,
        );
        assert!(rt; refused.is_err());
    }

    #[test]
    fn an_award_is_written(rt: HostRuntime) -> Result<(), Fail> {
        let mut buf = [9u8; 12];
        assert_eq!(rt;
            write_entry(&mut buf, &opening()?, &FAMILIES, award(b"ab"))?,
            11
        );
        assert!(rt; buf == [1, 0, 7, 1, 4, 100, 120, 0, 2, 97, 98, 9]);
        Ok(())
    }

    #[test]
    fn a_bad_reference_is_cause_6_and_no_room_cause_7(rt: HostRuntime) -> Result<(), Fail> {
        let mut buf = [9u8; 3];
        let bad = Err(Fault {
            cause: Cause::BadText,
            entry: 0,
            place: 0,
        });
        assert!(rt; write_entry(&mut buf, &opening()?, &FAMILIES, award(&[31])) == bad);
        let full = Err(Fault {
            cause: Cause::NoRoom,
            entry: 0,
            place: 0,
        });
        assert!(rt; write_entry(&mut buf, &opening()?, &FAMILIES, award(b"")) == full);
        assert!(rt; buf == [9, 9, 9], "a refusal leaves the buffer as it was");
        Ok(())
    }

    #[test]
    fn listed_figures_are_written_as_bytes(rt: HostRuntime) -> Result<(), Fail> {
        let mut buf = [9u8; 160];
        let figures = [300u32; 72];
        let entry = Entry::Sheet(Sheet {
            award: 1,
            family: 1,
            figures: Figures::Listed(&figures),
            reference: b"",
        });
        assert_eq!(rt;
            write_entry(&mut buf, &opening()?, &FAMILIES, Turn { sender: 7, entry })?,
            149
        );
        assert!(rt;
            buf[0] == 8
                && buf[3] == 1
                && buf[4] == 0xAC
                && buf[5] == 2
                && buf[148] == 0
                && buf[149] == 9
        );
        Ok(())
    }

    #[test]
    fn too_few_figures_are_cause_5(rt: HostRuntime) -> Result<(), Fail> {
        let mut buf = [9u8; 160];
        let figures = [300u32; 71];
        let entry = Entry::Sheet(Sheet {
            award: 1,
            family: 1,
            figures: Figures::Listed(&figures),
            reference: b"",
        });
        let refused = Err(Fault {
            cause: Cause::OutOfRange,
            entry: 0,
            place: 0,
        });
        assert!(rt;
            write_entry(&mut buf, &opening()?, &FAMILIES, Turn { sender: 7, entry }) == refused
        );
        Ok(())
    }
}
