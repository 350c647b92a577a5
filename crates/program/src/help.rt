//! The texts on the program's use.

pub const ABOUT: &str = "\
Reads Parquet files as JSON, and makes them of JSON. Keeps tables as datasets: folders of Parquet files, to which rows
are appended and from which they are printed and removed, each change in one commit.";

/// The version. `python/pqds/__init__.py` has it too, and `bench/tools/check_docs.py` compares both.
pub const VERSION: &str = "0.2.0";

pub const AFTER: &str = "\
Returns status 0 when all was done, and 1 when the call was refused: then the last line on standard error is
`refused`, a number, a name, and for 6 and 7 the column. Status 2 is a wrong call, or a call for this help or the
version, which are printed on standard error too.

One command at a time changes a dataset, and query, count, groups and schema read it meanwhile. Commands wait for each
other where they have to; with --wait SECONDS no longer than this, and with --no-wait not at all: then they are
refused 25, after a line that says so.

Example, at the top of the repository:

    ./pqds encode sample/two_rows.schema.json sample/two_rows.jsonl two_rows.parquet
    ./pqds decode two_rows.parquet

makes a file of two rows, and prints them:

    {\"x\":1}
    {\"x\":300}";

pub const DECODE: &str = "Prints each row of a Parquet file as a line of JSON";

pub const DECODE_LONG: &str = "\
Prints each row of a Parquet file as a line of JSON: an object by the names of the columns, in the byte order of
the names. Numbers are printed as they are (unsigned ones unsigned), booleans as true and false, text as text, and
other bytes as hexadecimal digits in lower case.

The file is read whole, and no line is printed before all of it was accepted. Standard output has the lines and
nothing else. Where its reader closes it early, as head does, the call ends with `refused 25 Device` and status 1.

Where standard error is a terminal and standard output is not, standard error shows after each 100000 rows how many
were printed; at the end that is removed. With --quiet it is not shown.

With --limit only the first N rows are printed. Row groups after those that have these rows are not checked: the file is
accepted, and refused, by its footer and these groups alone.

With --text dates, times, timestamps and decimals are printed as texts: \"2024-05-01\", \"13:05:09.12\", \"2024-05-01T13:05:09.12Z\"
and \"1176.14\". A value without a text, such as a date after the year 9999, is printed as without --text, and bytes as
{\"hex\":\"..\"}. With --out it is a wrong call, as a file is made of values, not of their texts.

With --out nothing is printed, but OUT is made: a file of the same rows and columns, written as the other options say; with
--limit of the first N rows alone, with --columns of these columns alone, in the order of the file. It is made as encode makes
its OUT, and refused 24 Exists where it is there already, 15 NoColumn for a column that the file does not have. Of OUT `-` the
bytes go to standard output, which may not be a terminal.

There are no FLOAT, DOUBLE, FLOAT16 or INT96 columns: their values have no order that all tools share. An annotation
over a type that it is not meant for is kept without meaning, and ranges are not checked: an int_8 column takes any
INT32.";

pub const DECODE_REFUSALS: &str = "\
The file is refused, with status 1 and one line on standard error, by one of these:

    1 Truncated    the bytes end before what they announce, or are fewer than 12
    2 Magic        the first or the last four bytes are not PAR1
    3 Thrift       a footer or a page header is no struct of the wanted shape
    4 Schema       the columns are no valid tree, or a column chunk disagrees with them
    5 Codec        a column chunk is compressed
    6 Float        a FLOAT, DOUBLE or FLOAT16 column, whose path follows
    7 Int96        an INT96 column, whose path follows
    8 Encoding     an encoding that is not known, or not for this type or place
    9 Page         a page or chunk whose sizes, offsets or counts cannot be
    10 Levels      no rows have the columns' levels, or not as many as the row group says
    11 Value       bytes that are no value in their encoding
    12 Utf8        text that is not UTF-8
    13 Limit       the file goes beyond a limit: 2147483647 bytes, a footer of 16 MiB, 1024 columns, 32 fields on
                   the path of one, 16777216 rows of a group or entries of a column in it, a value of 16 MiB
    25 Device      the file cannot be read, or standard output not be written
    28 Memory      there was no memory left

Example, at the top of the repository:

    ./pqds decode sample/two_rows.parquet

prints

    {\"x\":1}
    {\"x\":300}";

pub const ENCODE: &str = "Makes a Parquet file of rows that are lines of JSON";

pub const ENCODE_LONG: &str = "\
Makes a Parquet file of rows that are lines of JSON, in the columns of a schema.

SCHEMA is a file with a JSON array of the columns, each an object:

    name       the column's name
    rep        required, optional or repeated
    type       boolean, int32, int64, bytes, or fixed with its length in bytes as length
    note       where it is there: what the values are. Of bytes utf8 (text), enum, json, bson; of numbers int_8,
               int_16, int_32, int_64, uint_8, uint_16, uint_32, uint_64, date, time_millis, time_micros,
               timestamp_millis, timestamp_micros; interval; decimal, with members precision and scale; of a
               group list, map or map_key_value. Or other, with the number of another ConvertedType as
               converted, or the hexadecimal digits of the struct of a LogicalType as logical
    fields     in place of type: the columns of a group

ROWS is a file with a line of JSON for each row, as decode prints them: an object with a value for each column by
its name, text where the column is text, and other bytes as hexadecimal digits in lower case. The last line needs
no line feed; an empty line is no row, and is refused.

With --text dates, times, timestamps and decimals may be texts, as decode prints them with --text, and so may numbers, and bytes
as {\"hex\":\"..\"}. A timestamp may have a blank for the T, no Z, or an offset such as +02:00, and a decimal fewer places than its
scale. Refused 14 for a text that is no value of its column: a day that the month does not have, a second of 60, a place too
many, a date with a time.

OUT is a new file, and no file is ever replaced. It appears whole, or not at all: it is made under another name and
then called OUT by a link. Only where that link fails is it written under its own name, and if the machine crashes
meanwhile, a part of it may be left there. Both other files are read whole first, and nothing is made where anything
is refused. Standard output has nothing. Where standard error is a terminal, it shows after each 100000 rows how many
were read; at the end that is removed. With --quiet it is not shown.

A style is how the values of a column are encoded:

    plain       as they are
    dictionary  each different value once, and its index in each row. Booleans are plain, and so is a column with
                more than 65536 different values in a row group
    delta       numbers by their differences, bytes by what each has in common with the one before it, and booleans
                by runs
    lengths     as delta, but bytes by their lengths and then all of them, and those of a fixed length plain
    split       numbers and bytes of a fixed length by the first byte of each, then the second, and so on; other bytes
                plain, and booleans by runs";

pub const ENCODE_REFUSALS: &str = "\
The call is refused, with status 1 and one line on standard error, by the first of these that is found: first what
is wrong with the files (SCHEMA before ROWS), then with their JSON (SCHEMA before ROWS, the first line before the
others), then with the rows as a whole, and last with OUT.

    4 Schema       the columns are no valid tree: two of one name, none at all, a length that cannot be
    6 Float        a column that is noted as FLOAT16, whose path follows
    13 Limit       an option out of its range (--group-rows 1 to 16777216, --page-rows 1 or more, --page-version 1
                   or 2), more than 1024 columns, more than 32 fields on the path of one, a value of more than
                   16 MiB, more than 16777216 entries of a column in a row group, or too much for a file of
                   2147483647 bytes or its footer of 16 MiB
    14 RowShape    a row without a required column, with a member that is no column, or with a value that is not of
                   its column
    24 Exists      OUT is there already; it is left as it is
    25 Device      SCHEMA or ROWS cannot be read, or OUT not be made
    28 Memory      there was no memory left
    29 Script      SCHEMA, or a line of ROWS, is not JSON of this form, or not UTF-8

Example, at the top of the repository:

    ./pqds encode sample/two_rows.schema.json sample/two_rows.jsonl two_rows.parquet

where sample/two_rows.schema.json is

    [{\"name\":\"x\",\"rep\":\"required\",\"type\":\"int64\"}]

and sample/two_rows.jsonl is

    {\"x\":1}
    {\"x\":300}";

pub const INSPECT: &str = "Says what a Parquet file is, or what a dataset has";

pub const INSPECT_LONG: &str = "\
Says what a Parquet file is: its rows, row groups, writer and key-values; its schema as a tree; of each column chunk
its type, codec, encodings, entries, sizes, offsets, statistics and pages; and what decode refuses of it, as far as
the footer and the page headers show that.

Only the footer and the page headers are read, and no value; of a pipe, and of a file of less than 64 KiB, all bytes are.
What a file says of itself, its statistics too, is shown unchecked, and decode may refuse a file in which nothing is
found. Where the page headers raise a suspicion, all bytes before the footer are read, the row group as decode reads it,
and it is named only where decode refuses it. At most 100000 pages are listed of a file, and 100 of the places that decode
refuses. The bounds of statistics are shown as decode prints values; those of a column that decode does not read, as
hexadecimal digits. Of the two kinds of bounds the deprecated ones are shown only where the others are missing. Names that
are not UTF-8 are shown with replacement characters.

With --json the same is one line of JSON: of a file an object with bytes, footer_bytes, version, rows, created_by,
key_values, schema (each element with its depth), groups (each with chunks, and these with pages) and not_read; of a
dataset one with bytes, columns (each with key, note, path, repetition and type), groups, keys (all of them, each with
bytes, folder, groups and rows), leftovers, min_rows, missing, rows and small_groups.

Where FILE is the folder of a dataset it says what the dataset has: the columns, with what they say of their values, as
DATE; the rows, groups and bytes in all and of the twenty keys with the most bytes, with a bar for each; how many groups
`rewrite --min-rows N` would put together; which part files are there that the dataset does not name, and which it names
that are not there. A key is shown as it is, and not as its folder's name, which is escaped. Only its _metadata is read,
and the names in its folders. Nothing is changed, nor what a stop left behind removed.";

pub const INSPECT_REFUSALS: &str = "\
The file is refused, with status 1 and one line on standard error, where its footer cannot be read (or, of a dataset, its
_metadata; 23 where there is none, and 4, 9 or 17 where it describes no table):

    1 Truncated    the bytes end before what they announce, or are fewer than 12
    2 Magic        the first or the last four bytes are not PAR1
    3 Thrift       the footer is no struct of the wanted shape
    13 Limit       the file has more than 2147483647 bytes, or its footer more than 16 MiB
    25 Device      the file cannot be read, or standard output not be written
    28 Memory      there was no memory left

Example, at the top of the repository:

    ./pqds inspect sample/two_rows.parquet

prints

    140 bytes, of which the footer has 95
    rows: 2, in row groups: 1
    written by: pqds

    schema
      required INT64 x

    row group 0: rows 2, 33 bytes
      column x: INT64, UNCOMPRESSED, entries 2
        33 bytes, 33 uncompressed; encodings PLAIN, RLE
        no dictionary, data pages from 4
        statistics: min 1, max 300, nulls 0, distinct values unknown
        page at 4: DATA_PAGE, PLAIN, entries 2, 17 + 16 bytes

    decode refuses nothing of the footer and of the page headers";

pub const CHECK: &str = "Says whether rows are of a schema, or whether a dataset is whole";

pub const CHECK_LONG: &str = "\
Says whether encode makes a file of these rows, with its default options, and why not where it does not. Nothing is
made. SCHEMA and ROWS are as for encode, also with --text.

Prints `ok N rows` where it does. Else standard error has a line that says where the first fault is, what was
expected there and what was found, and then the line by which encode refuses the same files:

    ROWS:7: a.list[2].b: expected true or false, found 3
    refused 14 RowShape

The time and the memory are those of encode.

Without ROWS it checks the schema alone, and prints `ok N columns`.

Where SCHEMA is the folder of a dataset, and there is no ROWS, it reads each part file of the dataset: that it is there and
can be read, that it has the columns and rows that the dataset says, that its footer and the dataset describe its
column chunks alike, and that the statistics are true of its values. Prints `ok` and how much there is; or a line for each
file with what is wrong in it, and is then refused as the first of them counts. A note has the part files that the
dataset does not name: a query may still read them, or a command was stopped. The next change removes them where no
query does. Rows of ROWS are rows that append would take. Nothing is changed.

After `ok`, a line that begins with `note: ` says what is accepted here and other tools may refuse: a note that does not go with
the type of its column, a decimal without a precision or with more digits than its type holds, an empty name. With ROWS it
says in which row a member stands twice: the last one counts. A note is no fault: the status is 0.

Of a dataset, where standard error is a terminal, it shows after each 100000 rows how many were checked, or read of ROWS; at
the end that is removed. With --quiet it is not shown.";

pub const CHECK_REFUSALS: &str = "\
The files are refused, with status 1, as encode refuses them, but for 24:

    4 Schema       the columns are no valid tree: two of one name, none at all, a length that cannot be
    6 Float        a column that is noted as FLOAT16, whose path follows
    13 Limit       more than 1024 columns, more than 32 fields on the path of one, a value of more than 16 MiB, more
                   than 16777216 entries of a column in a row group, or too much for a file of 2147483647 bytes or
                   its footer of 16 MiB
    14 RowShape    a row without a required column, with a member that is no column, or with a value that is not of
                   its column
    25 Device      SCHEMA or ROWS cannot be read, or standard output not be written
    28 Memory      there was no memory left
    29 Script      SCHEMA, or a line of ROWS, is not JSON of this form, or not UTF-8

A dataset is refused 23 where there is none, and its files as decode refuses them; and

    1 Truncated    a file is not there
    4 Schema       a file has other columns than the dataset says
    9 Page         a file has other rows, chunks or statistics than the dataset says
    17 Key         a row of ROWS has a key that no folder can be named by
    24 Exists      a file or a folder has a name that a commit needs
    25 Device      something that is neither has a name that a commit needs

Example, at the top of the repository:

    ./pqds check sample/two_rows.schema.json sample/two_rows.jsonl

prints

    ok 2 rows";
