//! What is due where a line does not go on.
use bl_due::due::{Due, Section};
use bl_due::misfit::misfit_of;
use bl_level::token::{Keyword, Sign};
use std::test::Fail;

#[test]
fn a_level_may_have_categories(rt: HostRuntime) -> Result<(), Fail> {
    let line: &[u8] = b"subject bob greatest u memo";
    let misfit = misfit_of(rt.alloc(), line, Section::Entries)?.expect(&rt, "a misfit");
    let due: [Due; 2] = [Due::Sign(Sign::Open), Due::Word(Keyword::Current)];
    assert_eq!(rt; misfit.due.as_slice(), due.as_slice());
    Ok(())
}

#[test]
fn a_subject_may_end_at_its_flags(rt: HostRuntime) -> Result<(), Fail> {
    let line: &[u8] = b"subject bob greatest u current u{nato} trusted trusted";
    let misfit = misfit_of(rt.alloc(), line, Section::Entries)?.expect(&rt, "a misfit");
    let due: [Due; 2] = [Due::Word(Keyword::Admin), Due::End];
    assert_eq!(rt; (misfit.at, misfit.len), (47, 7));
    assert_eq!(rt; misfit.due.as_slice(), due.as_slice());
    Ok(())
}

#[test]
fn a_line_that_is_right(rt: HostRuntime) -> Result<(), Fail> {
    let line: &[u8] = b"allow bob memo r w a";
    assert_eq!(rt;
        misfit_of(rt.alloc(), line, Section::Entries)?.is_none(),
        true
    );
    Ok(())
}
