// Document 01's three sheets through the call that `mixrun` makes: one thrust-floor entry, no entries, for which
// nothing is printed, and 65 entries, which is refused.
use lines::TEXT;
use report::text_of;
use streams::STDOUT_FILENO;

const ONE_ENTRY: [u8; 28] = [
    0x01, 0x01, 0x1c, 0x00, 0x01, 0x00, 0x08, 0x00, 0x00, 0x00, 0x00, 0x3f, 0x00, 0x00, 0x00, 0x3f,
    0x00, 0x00, 0x00, 0x00, 0x00, 0x00, 0x00, 0x00, 0x00, 0x00, 0x80, 0x3e,
];

const NO_ENTRIES: [u8; 4] = [0x01, 0x00, 0x04, 0x00];

const TOO_MANY: [u8; 4] = [0x01, 0x41, 0x04, 0x00];

pub(crate) fn show_all() {
    show(&ONE_ENTRY);
    show(&NO_ENTRIES);
    show(&TOO_MANY);
}

fn show(sheet: &[u8]) {
    let mut text = [0u8; TEXT];
    let size = text_of(sheet, &mut text);
    io::write_all(STDOUT_FILENO, &text[..size]);
}
