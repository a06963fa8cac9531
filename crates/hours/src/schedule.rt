// Document 01's fixed schedule in 96 bytes (02 No. 2), four entries to a byte, of which the first stands in the lowest bits. Eight bytes stand in a word, the
// first one lowest, so that they are one after the other in memory. A row has three words.
// Words and not bytes: `pack` gives such words, which an account is to hold by request 7, and one function unpacks both.
// A static, so that it stands in read-only memory; a constant would be stored to the stack by instructions.
pub static PACKED: [u64; 12] = [
    // winter weekdays
    0xaaaa_ffff_ffff_ffaa,
    0xaaaa_aaaa_aaaa_aaaa,
    0xaaaa_aa55_5555_55aa,
    // winter weekends
    0xaaaa_ffff_ffff_ffaa,
    0xaaaa_aaaa_aaaa_aaaa,
    0xaaaa_aa55_5555_55aa,
    // summer weekdays
    0xaaaa_ffff_ffff_ffaa,
    0x5555_55aa_aaaa_aaaa,
    0xaaaa_aaaa_aaaa_5555,
    // summer weekends
    0xaaaa_ffff_ffff_ffaa,
    0xaaaa_aaaa_aaaa_aaaa,
    0xaaaa_aaaa_aaaa_aaaa,
];
