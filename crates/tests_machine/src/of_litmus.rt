//! The crates `litmus` and `litmus_reader`.

use litmus::{ConditionDraft, ConditionError, Place, Symbol};
use litmus_reader::{LitmusError, LitmusFault};
use std::test::Fail;
use texts::Numbered;

#[test]
fn a_misplaced_symbol_leaves_the_draft(rt: HostRuntime) {
    let mut draft = ConditionDraft::new(rt.alloc());
    draft.push(Symbol::Not).expect(&rt, "memory");
    let misplaced = ConditionError::Misplaced;
    assert_same!(rt; draft.push(Symbol::And), Err(misplaced));
    let is = Symbol::Is {
        place: Place::Word { address: 0 },
        value: 0,
    };
    draft.push(is).expect(&rt, "memory");
    let _condition = draft.finish().expect(&rt, "a condition");
}

#[test]
fn errors_of_conditions_have_their_texts(rt: HostRuntime) -> Result<(), Fail> {
    let none = ConditionError::NoMemory;
    assert_same!(rt; none.to_string(rt.alloc())?.as_str(), "no memory");
    let misplaced = ConditionError::Misplaced;
    assert_same!(rt; misplaced.to_string(rt.alloc())?.as_str(), "bad condition");
    Ok(())
}

#[test]
fn faults_have_their_numbers_and_texts(rt: HostRuntime) -> Result<(), Fail> {
    let faults = [
        (LitmusFault::NoHeader, 21, "no header at line 9"),
        (LitmusFault::BadInit, 22, "bad init at line 9"),
        (LitmusFault::BadTable, 23, "bad table at line 9"),
        (LitmusFault::BadInstr, 24, "bad instruction at line 9"),
        (LitmusFault::BadCondition, 25, "bad condition at line 9"),
        (LitmusFault::TooMany, 26, "too many at line 9"),
    ];
    for (fault, number, text) in faults {
        let error = LitmusError::at_line(fault, 9);
        assert_same!(rt; error.number(), number);
        assert_same!(rt; error.to_string(rt.alloc())?.as_str(), text);
    }
    Ok(())
}
