//! The crate `command_line`.

use command_line::CommandLineError;
use std::test::Fail;

/// The program shows neither: it makes a failure of its own of each.
#[test]
fn errors_have_their_texts(rt: HostRuntime) -> Result<(), Fail> {
    let bad = CommandLineError::BadCommandLine.to_string(rt.alloc())?;
    assert!(rt; bad.as_str() == "bad command line");
    let none = CommandLineError::NoMemory.to_string(rt.alloc())?;
    assert!(rt; none.as_str() == "no memory");
    Ok(())
}
