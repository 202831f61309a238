//! The usage of the program.

/// What is said on standard error of words that are no form of the command line, behind the line that says which word is wrong. The same
/// text stands in usage.txt, which the script at the top shows where nothing is built.
pub const USAGE_TEXT: &str =
    "lawdesk tells what the text of an act was on a day, and keeps the register of what was enacted and amended.

Usage: lawdesk COMMAND [WORD]...

Commands:
  text DATE [READING]                   the text on that day of the act of the dossier on standard input
  batch                                 answers the HTTP requests on standard input, over the register
  serve PORT CONNECTIONS                answers the HTTP requests of connections, four at a time, over the register
  check                                 how many entries the register has, or what is damaged
  report lifecycle WORK                 a table of what happened to an act
  report correspondence WORK DATE DATE  a table of which provision of one day is which of another
  report unapplied DATE                 a table of what could not be applied on that day, and why
  report dangling DATE                  a table of which references dangle on that day, and why
  generate SEED COUNT                   makes a register in memory, and tells what became of its commands
  export FROM                           the entries of the register that stand above a number, as frames
  follow                                takes the frames on standard input into the register
  move                                  carries the register of the journal over to SQLite, or what came since
  sql COMMAND [WORD]...                 any other command, over the register in SQLite

Words:
  DATE         a day from 0001-01-01 to 9999-12-31, as 2011-01-01
  READING      force (what is in force, if no reading is given) or efficacy (what has effect)
  PORT         a whole number from 1 to 65535, of this machine alone
  CONNECTIONS  a whole number from 1 to 1000000, which each of the four serves one after another
  WORK         the IRI of an act, as /akn/gb/act/2010-05-01/7
  SEED         a whole number from 0 to 18446744073709551615
  COUNT        a whole number from 1 to 2000
  FROM         a whole number from 0 (for all entries) to 18446744073709551615

All but text and generate open the journal lawdesk.jnl in the working folder; behind sql it is the database lawdesk.db,
and move opens both. Answers, responses, tables and frames are written to standard output.

Exit status:
  0   it was done
  1   batch: what stood behind the last request was none
  2   the words are none of these commands
  3   standard input could not be read
  4   standard output could not be written
  5   the journal or the database could not be opened, read or written, or another process holds it
  6   what is kept is no register
  7   there was not enough memory
  8   serve: the port could not be listened at, or no connection could be had
  9   a rule of the register refuses the act, a modification or the question
  10  standard input is no dossier
  11  move: the database has another entry than the journal, or more
  12  follow: a frame is refused";
