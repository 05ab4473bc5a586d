use std::process::Abort;

/// Adds the part at the end.
pub fn tell(rt: &impl Abort, told: &mut String, part: &str) {
    told.push_str(part).expect(rt, "memory");
}

/// Stops the test, and prints the text, where what was told of it isn't what is wanted.
pub fn check_told(rt: &impl Abort, text: &str, told: &str, want: &str) {
    assert_eq!(rt; told, want, "{text}");
}
