use crate::input_runs::{drill_seven, first_other};
use std::test::Fail;

#[test]
fn runs_end_as_the_table_says(rt: HostRuntime) -> Result<(), Fail> {
    assert_eq!(rt; first_other(rt.alloc())?, None);
    Ok(())
}

#[test]
fn a_seed_drills_the_same_at_each_run(rt: HostRuntime) -> Result<(), Fail> {
    let first = drill_seven(rt.alloc())?;
    let second = drill_seven(rt.alloc())?;
    let (Some(first), Some(second)) = (first, second) else {
        assert!(rt; false);
        return Ok(());
    };
    assert!(rt; first.bytes() == second.bytes());
    assert!(rt;
        first
            .bytes()
            .starts_with(b"drill 7: sessions 200, committed ")
    );
    assert!(rt; first.bytes().ends_with(b", free gold 20000\n"));
    Ok(())
}
