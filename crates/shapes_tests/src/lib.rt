// Runs of shapes at the depth limit and of each source.
#![tactic(auto)]

#[cfg(test)]
mod tests {
    use shapes::{Coord, Cursor, ShapeSource, Swapped, Table, check};
    use std::process::Abort;
    use std::test::Fail;

    // 32 collections, most significant byte first, each the only part of the one before; the last says that it has so many parts. One byte more follows.
    fn nested(last: u8) -> [u8; 289] {
        let mut bytes = [0; 289];
        for collection in bytes.chunks_exact_mut(9) {
            collection.copy_from_slice(&[0, 0, 0, 0, 7, 0, 0, 0, 1]);
        }
        bytes[287] = last;
        bytes
    }

    fn refused_with(rt: &impl Abort, bytes: &[u8], number: u8, place: usize) -> Result<(), Fail> {
        let fault = check(bytes).err().ok_or("read")?;
        assert_eq!(rt; u8::from(fault.cause), number);
        assert_eq!(rt; fault.place, place);
        Ok(())
    }

    #[test]
    fn level_32_is_read(rt: HostRuntime) -> Result<(), Fail> {
        let bytes = nested(0);
        let mut cursor = Cursor::new(check(&bytes[0..288])?);
        assert_eq!(rt; u32::from(cursor.code()), 7);
        assert!(rt; cursor.next().is_none());
        Ok(())
    }

    #[test]
    fn level_33_is_refused(rt: HostRuntime) -> Result<(), Fail> {
        let bytes = nested(1);
        refused_with(&rt, &bytes[0..288], 5, 288)?;
        refused_with(&rt, &bytes, 5, 288)
    }

    #[test]
    fn a_point_cut_or_followed_is_refused(rt: HostRuntime) -> Result<(), Fail> {
        let mut bytes = [0; 22];
        bytes[0] = 1;
        bytes[1] = 1;
        refused_with(&rt, &bytes[0..0], 1, 0)?;
        refused_with(&rt, &bytes[0..20], 1, 13)?;
        refused_with(&rt, &bytes, 6, 21)
    }

    #[test]
    fn a_table_gives_its_axes_alone(rt: HostRuntime) -> Result<(), Fail> {
        let coords = [Coord {
            x: 1.0,
            y: 2.0,
            z: 3.0,
            m: 4.0,
            joins: true,
        }];
        let fault = Table::new(8, &coords).err().ok_or("8 is no code")?;
        assert_eq!(rt; u8::from(fault.cause), 13);
        assert_eq!(rt; fault.place, 0);
        let mut swapped = Swapped {
            inner: Table::new(2001, &coords)?,
        };
        assert_eq!(rt; swapped.left(), 1);
        let c = swapped.next().ok_or("no coordinate")?;
        assert!(rt; c.x == 2.0 && c.y == 1.0 && c.m == 4.0);
        assert!(rt; c.z.is_nan());
        assert!(rt; c.joins);
        assert!(rt; swapped.next().is_none());
        Ok(())
    }
}
