// A record of a table: the value at `start` + a's value × `m` + b's value.
ghost use Rattle.table.specs.Files.{decoded};

use language::FileRecord;

#[derive(Clone, Copy, Debug, PartialEq, Eq, Default)]
pub(crate) struct Record {
    pub(crate) a: u16,
    pub(crate) b: u16,
    pub(crate) m: u16,
    pub(crate) start: u16,
}

impl FileRecord for Record {
    ghost decoded = { decoded };

    fn decode(_k: u16, words: [u16; 4]) -> Option<Record> {
        let [a, b, m, start] = words;
        let ruled = a < 16 && b < 16 && (1..=256).contains(&m);
        ruled.then_some(Record { a, b, m, start })
    }
}
