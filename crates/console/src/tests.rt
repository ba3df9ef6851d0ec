use crate::session::run_line;
use std::test::Fail;

// What takes memory succeeds where there is some.
#[test]
fn records_are_answered(rt: HostRuntime) -> Result<(), Fail> {
    let heap = rt.alloc();
    let mut session = None;
    run_line(heap, &mut session, b"open letters 5 12 3")?;
    let Some(answer) = run_line(
        heap,
        &mut session,
        b"record 45000000000700000003000100000001000050 0",
    )?
    else {
        return Err(Fail::new("no answer"));
    };
    assert_eq!(rt;
        answer.to_string(heap)?.as_str(),
        "entry 0 7 3 1 0 000050 next 19"
    );
    let Some(answer) = run_line(heap, &mut session, b"record 5a000002 0")? else {
        return Err(Fail::new("no answer"));
    };
    assert_eq!(rt; answer.to_string(heap)?.as_str(), "closing 2 next 4");
    Ok(())
}
