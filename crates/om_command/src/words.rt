//! The words of the command line.

ghost use Rattle.std.specs.Prelude.{◌≡◌, map, string_bytes};
ghost use Rattle.std.specs.Option.{option_map};
ghost use Rattle.om_command.specs.Requests.{request_of};
ghost use Rattle.om_command.specs.Words.{asked_by};

/// What is done with the files of a request.
#[derive(Clone, Copy, Debug)]
pub enum Command<'a> {
    /// To answer a query, over an executable and a log.
    Query {
        /// The text of the query.
        sql: &'a str,
    },
    /// To record the run of an executable with an input.
    Record {
        /// The name under which the log is put.
        log: &'a str,
    },
    /// To tell what an executable has.
    Info,
}

/// What the words ask for.
#[derive(Clone, Copy, Debug)]
pub struct Request<'a> {
    /// The names of the files that are read, in their order.
    pub files: &'a [String],
    /// What is done with them.
    pub command: Command<'a>,
}

/// The request of the words after the program's name; none where they are none that is built.
pub fn read_words(words: &[String]) -> Option<Request<'_>>
    ensures { option_map asked_by result ≡ request_of (map string_bytes words.now) }
{
    match words {
        [word, _] if word.as_str() == "info" => Some(Request {
            files: &words[1..2],
            command: Command::Info,
        }),
        [word, _, _, sql] if word.as_str() == "query" => Some(Request {
            files: &words[1..3],
            command: Command::Query { sql: sql.as_str() },
        }),
        [word, _, _, log] if word.as_str() == "record" => Some(Request {
            files: &words[1..3],
            command: Command::Record { log: log.as_str() },
        }),
        _ => None,
    }
}
