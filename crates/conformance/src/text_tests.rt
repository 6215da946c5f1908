//! Texts of `codec_text` beside what they tell of: each refusal by its number and its name in the code, and texts that are as long as they come.

use codec_text::{BytesText, ResultText};
use injector::Refusal;
use std::test::Fail;

/// All refusals.
const REFUSALS: [Refusal; 20] = [
    Refusal::BadSyntax,
    Refusal::WrongVersion,
    Refusal::WrongIndex,
    Refusal::TimeType,
    Refusal::UnknownOp,
    Refusal::NoRequest,
    Refusal::TwoRequests,
    Refusal::BadType,
    Refusal::Unsupported,
    Refusal::TooManyAvails,
    Refusal::NoDuration,
    Refusal::NoReturn,
    Refusal::NoPreRoll,
    Refusal::NoClock,
    Refusal::InUse,
    Refusal::Full,
    Refusal::Overlap,
    Refusal::NoSuchEvent,
    Refusal::TooLate,
    Refusal::BadEnd,
];

#[test]
fn refusals_are_told_by_their_names(rt: HostRuntime) -> Result<(), Fail> {
    for refusal in REFUSALS {
        let number = refusal.number();
        let told = format!(in rt.alloc(); "{}", ResultText(number))?;
        let named = format!(in rt.alloc(); "0x{number:04X}/{refusal:?}")?;
        assert_eq!(rt; told.as_str(), named.as_str());
    }
    Ok(())
}

/// The most data that a `single_operation_message` has.
const MOST_DATA: usize = 65_535 - 13;

#[test]
fn the_most_data_print_whole(rt: HostRuntime) -> Result<(), Fail> {
    let data = vec![in rt.alloc(); 0xA5_u8; MOST_DATA]?;
    let text = format!(in rt.alloc(); "{}", BytesText(data.as_slice()))?;
    assert_eq!(rt; text.len(), 2 * MOST_DATA);
    assert!(rt;
        text.as_bytes()
            .chunks(2)
            .all(|digits| digits == b"A5".as_slice())
    );
    Ok(())
}
