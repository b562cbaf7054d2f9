//! The texts of the manual. Cases of `tools/program` look at each of them.

pub const LANGUAGE: &str = "The language of scripts

Each line begins with a word in small letters. An empty line and one that begins with # give nothing.
  table NAME (COLUMN TYPE [KEY], ..)  declares the table: 1 to 16 columns, INT or TEXT, one of them KEY
  load N N ..       puts the rows of these parts, which are numbered from 1 in the order of the command line;
                    a part of `--part NAME=FILE` may stand there by its NAME
  put RECORD        puts a row, a CSV record; it replaces the row of its key
  delete LITERAL    takes the row of this key out of the draft
  publish           makes the draft the next edition
  report QUERY      answers a query over the last published edition
  shape             shows how hashes of the keys share digits

Tokens: words (upper and lower case are the same), numbers (-7), texts in single quotes ('it''s') and the
signs ( ) , * = <> <= >= < >. No line ends with a semicolon.

Queries; what is in [ ] may be left out, what is in { } may come any number of times:
  query     = SELECT item { , item } FROM name [ WHERE predicate ]
              [ GROUP BY [ DISTINCT ] element { , element } ] [ HAVING predicate ]
  item      = name | COUNT(*) | COUNT([DISTINCT] name) | SUM(name) | MIN(name) | MAX(name)
              | GROUPING(name { , name })
  element   = () | unit | ROLLUP(unit { , unit }) | CUBE(unit { , unit }) | GROUPING SETS (element { , element })
  unit      = name | (name { , name })
  predicate = and { OR and }        and = not { AND not }        not = [ NOT ] ( (predicate) | test )
  test      = operand ( = | <> | < | <= | > | >= ) operand | operand IS [ NOT ] NULL
              | operand [ NOT ] BETWEEN operand AND operand | operand [ NOT ] IN (literal { , literal })
  operand   = name | literal, and in HAVING item | literal
There is no ORDER BY, LIMIT, JOIN, AS, AVG, * alone, !=, arithmetic or number with a point.

Order of the output: set by set as GROUP BY names them, and within a set by its columns in the order of the
table: NULL first, then integers by value, then texts by their bytes.

A record: fields with commas between, bare or in double quotes, in which a quote is doubled. An empty field is
NULL. Nothing is trimmed. A field of an INT column is an optional - and digits; one of a TEXT column is UTF-8.
A part: a header with the names of the columns, and then records.

Output of a line: `line L edition E`, a header and rows for a report; `line L refused N` where it is refused,
which changes nothing. `olap help N` tells of a refusal. With --strict a refused line is the last, with the
status 1; with --explain standard error has the reason of each; `olap check` looks for them before a run.

Limits: 1,048,576 bytes and 64 parts of a script; of a query 65,536 bytes, 32 items, 32 aggregates in HAVING,
16 columns in a GROUPING, 64 open parentheses, 256 grouping sets; texts of 1,024 bytes; integers of 64 bits.
";

pub const CHECK: &str = "Looks for faults in a script and its parts, and loads nothing

Usage: olap check [--part NAME=FILE]... SCRIPT [PART]...

Each line of the script is read as a run would read it: its command, the text of the table, the record of a
put, the query of a report. Of each part that a load line lists, all faulty records are told: the first 100 one
by one, and how many more there are; before them the first quote that is never closed or stands where none
should, which no load is refused for. What depends on rows, as too many of them, is not looked at. Each fault is a
line on standard output, as `olap run --explain` has it on standard error.

The status is 0 where there is no fault, 1 where there is one, 2 where a file cannot be read, and 3 where
memory was refused or the lines could not be written.
";

pub const NO_TABLE: &str = "1 NoTable

A line needs a table, and none is declared yet. For viewers: the script declares none.

Example: `publish` as the first line.
";

pub const TABLE_AGAIN: &str = "2 TableAgain

The table is declared already. A script has one table.

Example: a second `table` line after an accepted one.
";

pub const BAD_COMMAND: &str = "3 BadCommand

The line begins with no command, is not UTF-8, or its rest is not in the form of its command. Commands are in
small letters: table, load, put, delete, publish, report, shape.

Examples:
  Table T (K INT KEY)
  publish now
  load 1, 2
";

pub const BAD_SCHEMA: &str = "4 BadSchema

The rest of a `table` line is no table: a name, and in parentheses 1 to 16 columns with different names, each
with a type, INT or TEXT, and exactly one of them KEY.

Examples:
  table T (K INT)
  table T (K VARCHAR KEY)
";

pub const NO_PART: &str = "5 NoPart

A `load` line names a part that was not handed in. Parts are the files after the script, numbered from 1.

Example: `load 3` where two parts were handed in.
";

pub const BAD_PART: &str = "6 BadPart

A part that a `load` line lists has a faulty record; nothing of the line is loaded. The refusal names the
first such part and its first faulty record: record 0 is the header. What is wrong with it is refusal 7.

Example: `load 1` where a record of part 1 has a field too many.
";

pub const BAD_RECORD: &str = "7 BadRecord

The record of a `put` line is no row of the table: another number of fields than columns, a field that spells
no cell of its column, or NULL at the key. An INT is an optional - and digits, with 64 bits; a TEXT has at
most 1,024 bytes of UTF-8.

Examples:
  put x        for an INT key
  put 1,2      for one column
  put 1.0      for an INT column
";

pub const BAD_KEY: &str = "8 BadKey

The rest of a `delete` line is not one literal of the key's type: a number for an INT key, a text in single
quotes for a TEXT key.

Examples:
  delete 'a'    for an INT key
  delete a      for a TEXT key
";

pub const TOO_MANY_ROWS: &str = "9 TooManyRows

The draft would have more rows than `--rows` says.

Example: a `put` of a new key into a full draft.
";

pub const QUERY_SYNTAX: &str = "10 QuerySyntax

The text of the query is not in the grammar (`olap help language`).

Examples:
  report SELECT COUNT(* FROM T
  report SELECT COUNT(*) FROM T;
  report SELECT COUNT(*) FROM T ORDER BY K
";

pub const UNKNOWN: &str = "11 Unknown

The query names another table than the one that is declared, or a column that it does not have.

Example: `report SELECT COUNT(*) FROM U` where the table is T.
";

pub const NOT_GROUPED: &str = "12 NotGrouped

A column alone in the select list or in HAVING, or a column of a GROUPING, is in no grouping set.

Examples:
  report SELECT REGION FROM SALES
  report SELECT ITEM, COUNT(*) FROM SALES GROUP BY REGION
";

pub const WRONG_TYPE: &str = "13 WrongType

SUM has a TEXT column, or a comparison, BETWEEN or IN puts an integer beside a text.

Examples:
  report SELECT SUM(REGION) FROM SALES
  report SELECT COUNT(*) FROM SALES WHERE UNITS > 'a'
";

pub const TOO_MANY_SETS: &str = "14 TooManySets

The query has more than 256 grouping sets, repeated ones counted.

Example: GROUP BY CUBE of nine columns, which are 512 sets.
";

pub const LIMIT: &str = "15 Limit

A limit is passed: of a query 65,536 bytes, 32 items, 32 aggregates in HAVING, 16 columns in one GROUPING, 64
parentheses open at once; of a `load` 1,099,511,627,776 bytes; of a script 1,048,576 bytes and 64 parts, which
refuses it as a whole: `line 0 refused 15`; of a line of a session 1,048,576 bytes.

Example: a report of 33 items.
";

pub const OUT_OF_MEMORY: &str = "90

Memory was refused, and the run ended early, with the status 3. What was written is a beginning of the output.
";

pub const NO_WORKER: &str = "91

A thread could not be started, and the run ended early, with the status 3. What was written is a beginning of
the output. Fewer `--workers` or `--viewers` need fewer threads.
";

pub const WRITE_FAILED: &str = "92

The output could not be written, and the run ended early, with the status 3: a full disk, or a reader that
went away.
";

pub const NOT_SHOWN: &str = "93

The place of a viewer was refused, and the run ended early, with the status 3.
";

pub const QUERY: &str = "Answers one query over CSV files

Usage: olap query [OPTIONS] 'SELECT ..' FILE...

The files are read as parts of one table. It has the name of the first file, in upper case and without its
ending, where that is a name, else T; and the columns of the first header, in upper case and with _ for signs
and blanks, so that `Order Date` is ORDER_DATE. A column is INT where each of its fields is empty or an integer
of 64 bits without a zero in front, else TEXT. The key is the first column without an empty field in which no
value comes twice; where there is none, a first column N counts the records. Of a file of more than 16 columns
only those are read that the query names. `olap schema FILE` shows the table; `olap help language` tells of
queries.

Options:
      --columns LIST   Columns by their names in the header, as A,B=Other Name, which the query calls A and B
      --delimiter C    Character between two fields, or the word tab [default: ,]
      --number N       Name of a first column that counts records, as the key
      --null WORD      Word that stands for NULL, beside an empty field
      --trim           Leave out white space at both ends of fields
      --lenient-quotes Read quotes as they stand; without it a file is refused that opens one and never closes it,
                       has text after a closing one, or has one in a field that does not begin with one
      --order LIST     Columns of the answer by which its rows come, as 'SUM(UNITS) desc, REGION'
      --limit N        Most rows of the answer
      --workers N      Workers, 1 to 64 [default: as many as processors]
      --rows M         Most rows of the table, 1 to 4294967296 [default: 4294967296]
      --format FORM    Form of the answer, classic, csv, json or table [default: table on a terminal, else csv]
      --progress       Tell on standard error which columns are not read, and how far the run is
  -h, --help           Print help

Options may come before, between and after the names, and after the word -- all words are names.

Example:
  olap query 'SELECT REGION, COUNT(*), SUM(UNITS) FROM SALES GROUP BY REGION' sales.csv

The answer is that of a report in a script, without the line of its edition. NULL comes before integers, and these
before texts. In a table (all) stands where a row is a total over a column. Standard error says why a query is
refused, as `query:8: ..` by its columns, or a file, as `sales.csv:5: ..` by its lines.

The status is 0 where the answer was written, 1 where the query or a file is refused, 2 where the words are
refused or a file cannot be read, and 3 where the run ended early.
";

pub const SCHEMA: &str =
    "Shows the table that `olap query` proposes for a CSV file, as a line for a script of one's own

Usage: olap schema [OPTIONS] FILE

A script can load the file as it is where its fields are separated by commas, and where the header has the
names of the table; else the line tells how the file would be named and read.

Options:
      --columns LIST   Columns by their names in the header, as A,B=Other Name
      --delimiter C    Character between two fields, or the word tab [default: ,]
      --number N       Name of a first column that counts records, as the key
      --null WORD      Word that stands for NULL, beside an empty field
      --trim           Leave out white space at both ends of fields
      --lenient-quotes Read quotes as they stand; without it a file is refused that opens one and never closes it,
                       has text after a closing one, or has one in a field that does not begin with one
  -h, --help           Print help

Example:
  olap schema examples/loads.1.csv

The status is 0 where the line was written, 1 where the file is refused, 2 where the words are refused or the
file cannot be read, and 3 where memory was refused or the line could not be written.
";
