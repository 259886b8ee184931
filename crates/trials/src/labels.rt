// Labels at their limits.
use names::Label;

// 0 marks no label.
#[test]
fn labels_have_eight_bytes_at_most(rt: HostRuntime) {
    let texts: [(&[u8], u64); 3] = [
        (b"rye", 0x7279_6500_0000_0000),
        (b"baguette", 0x6261_6775_6574_7465),
        (b"sourdough", 0),
    ];
    'texts: for (text, due) in texts {
        assert_eq!(rt; Label::or_none(text).number, due);
    }
}
