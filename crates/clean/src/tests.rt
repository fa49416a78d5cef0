//! What is printed of a small card, of a faulty file and of one that is too large, in both forms.

use crate::form::Form;
use crate::text::report;
use std::test::Fail;

#[test]
fn printed(rt: HostRuntime) -> Result<(), Fail> {
    let card = b"P5\n3 3\n255\n\x0a\x14\x1e\x28\x32\x3c\x46\x50\x5a";
    let plain = b"P2\n3 3\n255\n10\n20\n30\n40\n40\n50\n70\n70\n80\n";
    let raw = b"P5\n3 3\n255\n\x0a\x14\x1e\x28\x28\x32\x46\x46\x50";
    let longer = vec![in rt.alloc(); b' '; 16641]?;
    let cases: [(Form, &[u8], &[u8]); 6] = [
        (Form::Plain, card, plain),
        (Form::Raw, card, raw),
        (Form::Plain, b"P5\n3 3\n256\n", b"refused 23 7\n"),
        (Form::Raw, b"P5\n3 3\n256\n", b"refused 23 7\n"),
        (Form::Plain, longer.as_slice(), b"too large\n"),
        (Form::Raw, longer.as_slice(), b"too large\n"),
    ];
    for (form, file, printed) in cases {
        assert_eq!(rt; report(rt.alloc(), file, form)?.as_slice(), printed);
    }
    Ok(())
}
