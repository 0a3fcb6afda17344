// What the cases run on: a table, and the words that are lent as its medium.
use crate::Answer;
use medium::BLANK;
use table::Table;

// As many words as a case may have.
const MOST_WORDS: usize = 768;

// The words have their number beside them, in an array as long as the longest case needs: a `Vec` can fail to grow, and a case's answer
// would be a `Result` for that alone.
#[derive(Drop)]
pub struct Archive {
    table: Table,
    words: [u32; MOST_WORDS],
    in_use: usize,
}

impl Archive {
    // A table of capacity 1 and salt 0 with no server, and no words.
    pub fn new() -> Self {
        Self {
            table: table::empty(1, 0),
            words: [BLANK; MOST_WORDS],
            in_use: 0,
        }
    }

    // The table and the words in use, lent.
    pub fn parts(&mut self) -> (&mut Table, &mut [u32]) {
        let n = self.in_use.min(MOST_WORDS);
        let words = &mut self.words;
        (&mut self.table, &mut words[..n])
    }

    // Makes all words blank and takes so many into use, counted modulo 769.
    pub fn blank(&mut self, n: u32) -> Answer<'static> {
        self.words = [BLANK; MOST_WORDS];
        self.in_use = n as usize % (MOST_WORDS + 1);
        Answer::Nothing
    }

    // Starts a table, one of all zeros where it is refused, and answers refusal, capacity and salt.
    pub fn start(&mut self, capacity: u32, salt: u32) -> Answer<'static> {
        let started = servers::start(capacity, salt);
        let refusal = replies::check_number(&started);
        self.table = started.unwrap_or(table::empty(0, 0));
        Answer::Three(refusal, self.table.capacity, u64::from(self.table.salt))
    }

    // Adds this many servers of weight 1.
    pub fn add_servers(&mut self, n: u32) -> Answer<'static> {
        let (table, medium) = self.parts();
        for _ in 0..n {
            let _ = servers::add_server(table, medium, 1);
        }
        Answer::Nothing
    }

    // Encodes the table over the words, and answers refusal and number of words.
    pub fn encode(&mut self) -> Answer<'static> {
        let (table, words) = self.parts();
        match image_writer::encode(table, words) {
            Ok(n) => Answer::Counted(0, n),
            Err(refusal) => Answer::Counted(refusal.number(), 0),
        }
    }

    // Decodes all the words, and answers refusal and count. Where they are refused, the table is one of all zeros.
    pub fn decode(&mut self) -> Answer<'static> {
        let (table, words) = self.parts();
        let decoded = image_reader::decode_into(words, table);
        Answer::Counted(replies::check_number(&decoded), table.count)
    }
}
