// The edges of the sheet format, one by one.
use plan::fault::Refusal;
use plan::wire::Wire;
use sheet::counts::Counts;
use sheet::read::read_sheet;
use std::process::Abort;
use std::test::Fail;

// That a sheet is refused, in a table of two records.
fn refused(rt: &impl Abort, sheet: &[u8], number: u8, place: usize) -> Result<(), Fail> {
    let mut table = [Wire::default(); 2];
    let Err(fault) = read_sheet(sheet, &mut table) else {
        return Err(Fail::new("taken"));
    };
    let refusal = Refusal {
        layer: 1,
        number,
        place,
    };
    assert_eq!(rt; fault.refusal(), refusal);
    Ok(())
}

// That a sheet is taken, in a table of two records.
fn taken(rt: &impl Abort, sheet: &[u8], boards: u8, wires: usize) -> Result<(), Fail> {
    let mut table = [Wire::default(); 2];
    let Ok(counts) = read_sheet(sheet, &mut table) else {
        return Err(Fail::new("refused"));
    };
    assert_eq!(rt; counts, Counts { boards, wires });
    Ok(())
}

#[test]
fn lines_of_60_bytes_pass(rt: HostRuntime) -> Result<(), Fail> {
    taken(
        &rt,
        b"note 6789012345678901234567890123456789012345678901234567890\nboards 2",
        2,
        0,
    )?;
    refused(
        &rt,
        b"note 67890123456789012345678901234567890123456789012345678901\nboards 2",
        2,
        1,
    )
}

#[test]
fn counts_from_1_to_128_pass(rt: HostRuntime) -> Result<(), Fail> {
    taken(&rt, b"boards 1", 1, 0)?;
    taken(&rt, b"boards 128\n", 128, 0)?;
    refused(&rt, b"boards 0\n", 8, 1)?;
    refused(&rt, b"\nboards 129\n", 8, 2)
}

#[test]
fn ports_up_to_7_pass(rt: HostRuntime) -> Result<(), Fail> {
    taken(&rt, b"boards 2\nwire 0 7 1 7 ok\n", 2, 1)?;
    refused(&rt, b"boards 2\nwire 0 8 1 7 ok\n", 8, 2)
}

#[test]
fn a_needless_0_is_no_number(rt: HostRuntime) -> Result<(), Fail> {
    refused(&rt, b"boards 007\n", 6, 1)
}

#[test]
fn a_sheet_ends_without_boards_behind_its_last_line(rt: HostRuntime) -> Result<(), Fail> {
    refused(&rt, b"", 7, 1)?;
    refused(&rt, b"\n", 7, 2)
}
