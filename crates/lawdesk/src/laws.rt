//! Laws of the program: what it takes and what it says, number by number and word by word. Each is a function that does
//! nothing, whose clauses are the law.

ghost use Rattle.std.specs.Prelude.{◌≡◌, ◌≢◌, ◌↔◌, ◌<◌, ◌+◌, ◌∷◌, ◌++◌, [], ℕ, true, false, List, Option, Some, None, codes, length, take};
ghost use Rattle.akn_json.specs.Reading.Bytes.{most_bytes};
ghost use Rattle.lawdesk.specs.Amiss.{amiss};
ghost use Rattle.lawdesk.specs.Jobs.{job_of};
ghost use Rattle.lawdesk.specs.Notices.{kept_by, kept_text, notice_of, usage_of};
ghost use Rattle.lawdesk.specs.declared.amiss.Amiss.{Amiss};
ghost use Rattle.lawdesk.specs.declared.job.Job.TheVariants.{Export, Generate, Serve};
ghost use Rattle.lawdesk.specs.declared.notice.Kept.{Kept};
ghost use Rattle.lawdesk.specs.declared.usage.TheConstants.{USAGE_TEXT};

/// At most so many bytes are read of a source: one more than a dossier may have.
pub fn input_is_limited()
    ensures { most_bytes + 1 ≡ 8388609 }
{}

/// A register is generated of 1 to 2000 requests, from a seed of 64 bits.
pub fn counts_are_limited()
    ensures least { job_of (codes "generate" ∷ codes "0" ∷ codes "1" ∷ [])
        ≡ Some (Generate (record { seed = 0; count = 1 })) }
    ensures most { job_of (codes "generate" ∷ codes "18446744073709551615" ∷ codes "2000" ∷ [])
        ≡ Some (Generate (record { seed = 18446744073709551615; count = 2000 })) }
    ensures no_request { job_of (codes "generate" ∷ codes "0" ∷ codes "0" ∷ []) ≡ None }
    ensures one_more { job_of (codes "generate" ∷ codes "0" ∷ codes "2001" ∷ []) ≡ None }
    ensures larger_seed { job_of (codes "generate" ∷ codes "18446744073709551616" ∷ codes "1" ∷ []) ≡ None }
{}

/// What is exported stands above a number of 64 bits, in decimal without leading zeros.
pub fn exports_are_limited()
    ensures least { job_of (codes "export" ∷ codes "0" ∷ []) ≡ Some (Export 0) }
    ensures most { job_of (codes "export" ∷ codes "18446744073709551615" ∷ []) ≡ Some (Export 18446744073709551615) }
    ensures one_more { job_of (codes "export" ∷ codes "18446744073709551616" ∷ []) ≡ None }
    ensures zeros { job_of (codes "export" ∷ codes "01" ∷ []) ≡ None }
{}

/// Connections are served at a port from 1 to 65535, 1 to 1000000 of them by each gate.
pub fn connections_are_limited()
    ensures least { job_of (codes "serve" ∷ codes "1" ∷ codes "1" ∷ [])
        ≡ Some (Serve (record { port = 1; connections = 1 })) }
    ensures most { job_of (codes "serve" ∷ codes "65535" ∷ codes "1000000" ∷ [])
        ≡ Some (Serve (record { port = 65535; connections = 1000000 })) }
    ensures no_port { job_of (codes "serve" ∷ codes "0" ∷ codes "1" ∷ []) ≡ None }
    ensures no_connection { job_of (codes "serve" ∷ codes "8080" ∷ codes "0" ∷ []) ≡ None }
    ensures larger_port { job_of (codes "serve" ∷ codes "65536" ∷ codes "1" ∷ []) ≡ None }
    ensures one_more { job_of (codes "serve" ∷ codes "8080" ∷ codes "1000001" ∷ []) ≡ None }
{}

/// Where words are no form of the command line, and there alone, one of them is named, or the one that is missing behind them: the
/// words before it begin a form, and no form begins with them and it.
pub fn wrong_words_are_named()
    ensures named { (words : List (List ℕ)) → (amiss words ≡ None) ↔ (job_of words ≢ None) }
    ensures front { (words : List (List ℕ)) (found : Amiss) → amiss words ≡ Some found
        → (more : List (List ℕ)) × (job_of (take found.index words ++ more) ≢ None) }
    ensures wrong { (words : List (List ℕ)) (found : Amiss) → amiss words ≡ Some found → found.index < length words
        → (more : List (List ℕ)) → job_of (take (found.index + 1) words ++ more) ≡ None }
{}

/// What is said of words that are no form of the command line: which is wrong, and then the usage.
#[tactic(auto, unfolding(crate::specs::Notices::wrong_word))]
pub fn wrong_words_are_told()
    ensures none { usage_of (Some []) ≡ codes "lawdesk: no command is given" ++ 10 ∷ USAGE_TEXT.now }
    ensures command { usage_of (Some (codes "txt" ∷ [])) ≡ codes "lawdesk: txt is no command" ++ 10 ∷ USAGE_TEXT.now }
    ensures hidden { usage_of (Some ((27 ∷ codes "[2J") ∷ []))
        ≡ codes "lawdesk: the 1st word is no command" ++ 10 ∷ USAGE_TEXT.now }
    ensures alone { usage_of (Some (codes "move" ∷ codes "now" ∷ [])) ≡ codes "lawdesk: move stands alone" ++ 10 ∷ USAGE_TEXT.now }
    ensures missing { usage_of (Some (codes "text" ∷ []))
        ≡ codes "lawdesk: text wants a day, as 2011-01-01" ++ 10 ∷ USAGE_TEXT.now }
    ensures other { usage_of (Some (codes "generate" ∷ codes "0" ∷ codes "2001" ∷ []))
        ≡ codes "lawdesk: generate wants a count, from 1 to 2000, and not 2001" ++ 10 ∷ USAGE_TEXT.now }
    ensures more { usage_of (Some (codes "check" ∷ codes "now" ∷ []))
        ≡ codes "lawdesk: check wants no more words, and not now" ++ 10 ∷ USAGE_TEXT.now }
    ensures no_text { usage_of None ≡ codes "lawdesk: a word is no text in UTF-8" ++ 10 ∷ USAGE_TEXT.now }
{}

/// What is said on standard error beside a status.
pub fn notices_are_these()
    ensures words { (kept : Kept) (words : Option (List (List ℕ))) → notice_of 2 kept words ≡ Some (usage_of words) }
    ensures source { (kept : Kept) (words : Option (List (List ℕ))) → notice_of 3 kept words ≡ Some (codes "lawdesk: standard input could not be read") }
    ensures sink { (kept : Kept) (words : Option (List (List ℕ))) → notice_of 4 kept words ≡ Some (codes "lawdesk: standard output could not be written") }
    ensures keeper { (kept : Kept) (words : Option (List (List ℕ))) → notice_of 5 kept words ≡ Some (kept_text kept) }
    ensures memory { (kept : Kept) (words : Option (List (List ℕ))) → notice_of 7 kept words ≡ Some (codes "lawdesk: there was not enough memory") }
    ensures gates { (kept : Kept) (words : Option (List (List ℕ))) → notice_of 8 kept words
        ≡ Some (codes "lawdesk: the port could not be listened at, or a connection could not be had") }
{}

/// What is said where what keeps the register failed, and of which words that is.
pub fn kept_is_told()
    ensures journal { kept_text (kept_by (codes "check" ∷ []) false)
        ≡ codes "lawdesk: the journal lawdesk.jnl could not be opened, read or written" }
    ensures held { (words : List (List ℕ)) → kept_text (kept_by words true) ≡ codes "lawdesk: another process holds lawdesk.jnl" }
    ensures table { (words : List (List ℕ)) → kept_text (kept_by (codes "sql" ∷ words) false)
        ≡ codes "lawdesk: lawdesk.db could not be opened, read or written, or another process holds it" }
    ensures both { kept_text (kept_by (codes "move" ∷ []) false)
        ≡ codes "lawdesk: lawdesk.jnl or lawdesk.db could not be opened, read or written, or another process holds it" }
{}

/// What is said of all words that are no form of the command line.
pub fn usage_is_this()
    ensures { USAGE_TEXT.now ≡
        codes "lawdesk tells what the text of an act was on a day, and keeps the register of what "
        ++ codes "was enacted and amended." ++ 10 ∷ 10 ∷
        codes "Usage: lawdesk COMMAND [WORD]..." ++ 10 ∷ 10 ∷
        codes "Commands:" ++ 10 ∷
        codes "  text DATE [READING]                   the text on that day of the act of the "
        ++ codes "dossier on standard input" ++ 10 ∷
        codes "  batch                                 answers the HTTP requests on standard "
        ++ codes "input, over the register" ++ 10 ∷
        codes "  serve PORT CONNECTIONS                answers the HTTP requests of connections, "
        ++ codes "four at a time, over the register" ++ 10 ∷
        codes "  check                                 how many entries the register has, or what "
        ++ codes "is damaged" ++ 10 ∷
        codes "  report lifecycle WORK                 a table of what happened to an act" ++ 10 ∷
        codes "  report correspondence WORK DATE DATE  a table of which provision of one day is "
        ++ codes "which of another" ++ 10 ∷
        codes "  report unapplied DATE                 a table of what could not be applied on "
        ++ codes "that day, and why" ++ 10 ∷
        codes "  report dangling DATE                  a table of which references dangle on that "
        ++ codes "day, and why" ++ 10 ∷
        codes "  generate SEED COUNT                   makes a register in memory, and tells what "
        ++ codes "became of its commands" ++ 10 ∷
        codes "  export FROM                           the entries of the register that stand "
        ++ codes "above a number, as frames" ++ 10 ∷
        codes "  follow                                takes the frames on standard input into "
        ++ codes "the register" ++ 10 ∷
        codes "  move                                  carries the register of the journal over "
        ++ codes "to SQLite, or what came since" ++ 10 ∷
        codes "  sql COMMAND [WORD]...                 any other command, over the register in "
        ++ codes "SQLite" ++ 10 ∷ 10 ∷
        codes "Words:" ++ 10 ∷
        codes "  DATE         a day from 0001-01-01 to 9999-12-31, as 2011-01-01" ++ 10 ∷
        codes "  READING      force (what is in force, if no reading is given) or efficacy (what "
        ++ codes "has effect)" ++ 10 ∷
        codes "  PORT         a whole number from 1 to 65535, of this machine alone" ++ 10 ∷
        codes "  CONNECTIONS  a whole number from 1 to 1000000, which each of the four serves one "
        ++ codes "after another" ++ 10 ∷
        codes "  WORK         the IRI of an act, as /akn/gb/act/2010-05-01/7" ++ 10 ∷
        codes "  SEED         a whole number from 0 to 18446744073709551615" ++ 10 ∷
        codes "  COUNT        a whole number from 1 to 2000" ++ 10 ∷
        codes "  FROM         a whole number from 0 (for all entries) to 18446744073709551615" ++ 10 ∷ 10 ∷
        codes "All but text and generate open the journal lawdesk.jnl in the working folder; "
        ++ codes "behind sql it is the database lawdesk.db," ++ 10 ∷
        codes "and move opens both. Answers, responses, tables and frames are written to standard "
        ++ codes "output." ++ 10 ∷ 10 ∷
        codes "Exit status:" ++ 10 ∷
        codes "  0   it was done" ++ 10 ∷
        codes "  1   batch: what stood behind the last request was none" ++ 10 ∷
        codes "  2   the words are none of these commands" ++ 10 ∷
        codes "  3   standard input could not be read" ++ 10 ∷
        codes "  4   standard output could not be written" ++ 10 ∷
        codes "  5   the journal or the database could not be opened, read or written, or another "
        ++ codes "process holds it" ++ 10 ∷
        codes "  6   what is kept is no register" ++ 10 ∷
        codes "  7   there was not enough memory" ++ 10 ∷
        codes "  8   serve: the port could not be listened at, or no connection could be had" ++ 10 ∷
        codes "  9   a rule of the register refuses the act, a modification or the question" ++ 10 ∷
        codes "  10  standard input is no dossier" ++ 10 ∷
        codes "  11  move: the database has another entry than the journal, or more" ++ 10 ∷
        codes "  12  follow: a frame is refused" }
{}
