//! The texts on the use of the commands on a dataset.

pub const CREATE: &str = "Makes a dataset without rows";

pub const CREATE_LONG: &str = "\
Makes a dataset without rows in DIR, which is made where nothing is there.

SCHEMA is a file with a JSON array of the columns, as for encode. A KEY is the name of a column by whose values the rows are
put into folders `KEY=value`: a required column of type boolean, int32, int64, or bytes noted as utf8. Each part of the dataset
is a Parquet file without the key columns, and one file `_metadata` says which parts are the dataset: the layout of partitioned
datasets of other tools. pyarrow, DuckDB, Dask and fastparquet were seen to read such folders.

DIR is made once SCHEMA and the KEYs are accepted, and the folder above it is synced. That folder must be there. No part file is
written, so the options of how files are written have no effect: each command that writes rows takes its own.

Refused 24 Exists where DIR has a dataset already, which stays as it is, or part files that a new dataset would remove; 17 Key
for a KEY that is no such column, comes twice, or for all columns as keys; 4, 6 and 29 for the schema; 25 Device where DIR
cannot be made, or is a file. The line before 17 and 24 says which KEY or file, and why.";

pub const CREATE_EXAMPLE: &str = "\
Example, at the top of the repository:

    ./pqds create orders sample/orders_table.schema.json region";

pub const APPEND: &str = "Appends rows to a dataset";

pub const APPEND_LONG: &str = "\
Appends the rows of ROWS, a file with a line of JSON for each row, and prints `done N`, N the number of rows.

All of them come in or none, and once `done` is printed they stay. That this holds after a crash too is proved for a disk that
keeps the rules of docs/DISK.md; whether yours does is not known to the program.

Where standard error is a terminal, it shows after each 100000 rows how many were read, and then how much was read from the
disk and written to it so far; at the end that is removed. With --quiet it is not shown.

The lines are read before DIR is locked, so that other commands may use it meanwhile: the rows may come from a slow pipe, or from a
query of the same dataset. They are kept as columns; of the lines only a block and the longest one are in memory.

Refused 14, 29 or 13 for the first line that is no row, is not UTF-8, or has more than 1 GiB, after a line that says which and why;
4 Schema where DIR has got other columns or keys by the time that all lines are read, after a line that says so; 17 Key for a row
whose key has no folder (an empty text, or a longer name than 255 bytes), after a line that says which; 23 NoTable where DIR has no
dataset.

Refused 26 InDoubt where the disk failed at the moment of the commit: the rows are all there, or none is. So it is after a kill.
`pqds count DIR`, compared with the count before, shows which.

With --unless nothing is appended if a row of the dataset satisfies a filter (query says what a filter is): then it prints
`done 0`. The count and the append are made under one lock. So a load with a filter that only its own rows satisfy can be run
again, as by cron or after a kill; the second example has one.

With --text dates, times, timestamps and decimals may be texts, in the rows and in the filter, as query says it.";

pub const APPEND_EXAMPLE: &str = "\
Example, at the top of the repository:

    ./pqds create orders sample/orders_table.schema.json region
    ./pqds append orders sample/new_orders.jsonl

prints

    done 3

Example of a line that can be run again, here run twice:

    ./pqds create again sample/orders_table.schema.json
    ./pqds append again sample/later_orders.jsonl --unless '[[\"order\",\"==\",4]]'
    ./pqds append again sample/later_orders.jsonl --unless '[[\"order\",\"==\",4]]'

prints

    done 1
    done 0

Rows come from a pipe by `-`, as in `zcat rows.jsonl.gz | ./pqds append again -`.";

pub const IMPORT: &str = "Appends the rows of Parquet files to a dataset";

pub const IMPORT_LONG: &str = "\
Appends the rows of a Parquet file, and prints `done N`, N the number of rows. The columns of the file are those of the
dataset, with the key columns among them, in their order: name, repetition, type, length and annotation; else 4 Schema, after
a line that shows the first column that differs, in the file and in the dataset. `pqds schema` prints all columns of both. The
file is read as decode reads it, and refused as it refuses it; what the file says of itself besides its rows is not used.

With several FILEs the rows of all come in, in the order of the files and in one commit, or none. Where one of them is refused,
the line before the refusal names it. All files are read first: their bytes, and all of their rows as columns, are in memory.

With --unless nothing is appended if a row of the dataset satisfies a filter, as append says it.

With --text dates, times, timestamps and decimals in the filter may be texts, as query says it.

Where standard error is a terminal, it shows how much was read from the disk and written to it so far; at the end that is
removed. With --quiet it is not shown.

Refused 5 Codec for a compressed file: write it with compression=\"none\". Refused 6 Float or 7 Int96 for a column of such a
type: cast it to integers, decimals or texts (6), or to timestamps of microseconds (7). 17, 23 and 26 are as of append.";

pub const IMPORT_EXAMPLE: &str = "\
Example, at the top of the repository:

    ./pqds create numbers sample/two_rows.schema.json
    ./pqds import numbers sample/two_rows.parquet

prints

    done 2

Several files in one commit, as in `./pqds import numbers sample/two_rows.parquet sample/two_rows.parquet`: `done 4`.";

pub const QUERY: &str = "Prints rows of a dataset";

pub const QUERY_LONG: &str = "\
Prints rows of a dataset, each as a line of JSON, keys ascending, and within a key in the order in which they were
appended. With COLUMNs only these are printed, in the order of their names.

A filter is an array of ANDs, each an array of triples [column, operator, value]: a row is printed where all triples of one
AND hold. One AND may stand alone, as an array of triples; the empty filter [] holds for every row. Operators: == (also =), !=,
<, <=, >, >=, in, not in. A column is a name, or an array of the names on its path. A null satisfies no triple. A group of which
the statistics show that no row satisfies is not read, nor are columns that are neither printed nor in the filter.

`--filter @FILE` reads the filter from a file, `--filter @-` from standard input: a long list is longer than a command line. So
does each option that takes a filter. Refused 25 Device where the file cannot be read.

With --limit only the first N of these rows are printed. Groups after them are not read.

With --text dates, times, timestamps and decimals are printed as texts: \"2024-05-01\", \"13:05:09.12\", \"2024-05-01T13:05:09.12Z\"
and \"1176.14\". The filter may have such texts, numbers, and bytes as {\"hex\":\"..\"}; a timestamp may have a blank for the T, no Z,
or an offset such as +02:00. A value without a text, such as a date after the year 9999, is printed as without --text, and bytes
as {\"hex\":\"..\"}. Refused 14 for a text that is no value of its column: a day that the month does not have, a second of 60, a
place too many.

With --out the rows are not printed, but OUT is made: a Parquet file of them, or with --limit of the first N of them, in their
order, with the COLUMNs in the order of the dataset. No file is ever replaced, and OUT appears whole or not at all, as encode
says it of its OUT. It may not be in DIR. The other options say how it is written. Of OUT `-` the bytes go to standard output,
which may not be a terminal. They are in memory first: a file has at most 2147483647 bytes, or it is refused 13 Limit. Refused
24 Exists where OUT is there already.

With --text and --out the filter may have texts; with --out `-` it is a wrong call, as the bytes of a file are no texts.

Where OUT is an empty folder, files are made in it: part.0.parquet, part.1.parquet and so on, one at least, with the rows in
their order. A new one begins where one more group would make a file larger than 1 GiB, so one of them is in memory at a time.
After a refusal none of them is there, or a line names it. After a kill some may be: the next call is refused 24 Exists until
the folder is empty.

Where standard error is a terminal and standard output is not, standard error shows after each 100000 rows how many were
printed; at the end that is removed. With --quiet it is not shown.

A reader that closes the output early, as head does, ends the call with `refused 25 Device`.

Refused 14, 15, 16 or 29 for the filter, after a line that says for which of its terms and why; 15 NoColumn for a COLUMN that
is not there; 1 to 13 for a damaged part file, after a line that has its path. The rows before it are printed then.";

pub const QUERY_EXAMPLE: &str = "\
Example, at the top of the repository:

    ./pqds create orders sample/orders_table.schema.json region
    ./pqds append orders sample/new_orders.jsonl
    ./pqds query orders --filter '[[\"cents\",\">=\",1000]]' order cents

prints

    done 3
    {\"cents\":1250,\"order\":1}

The same as a file: `./pqds query orders --filter '[[\"cents\",\">=\",1000]]' order cents --out dear.parquet`";

pub const COUNT: &str = "Prints how many rows a dataset has";

pub const COUNT_LONG: &str = "\
Prints how many rows a dataset has, or how many satisfy a filter (query says what a filter is). Without a filter no part
file is read, with one only the columns in it. Refused as query.

With --text dates, times, timestamps and decimals in the filter may be texts, as query says it.";

pub const COUNT_EXAMPLE: &str = "\
Example, at the top of the repository:

    ./pqds create orders sample/orders_table.schema.json region
    ./pqds append orders sample/new_orders.jsonl
    ./pqds count orders --filter '[[\"region\",\"==\",\"north\"]]'

prints

    done 3
    2";

pub const GROUPS: &str = "Prints the groups of a dataset";

pub const GROUPS_LONG: &str = "\
Prints a line of JSON for each group of rows, in the order of the rows: the bytes of its columns, its key, its number, which
is in the name of its file, and how many rows it has. No part file is read.

With --stats it has a member `columns` too, an array of an object for each column that the group's file has: its name, as a
filter has it; its least and greatest value as `min` and `max`, printed as query prints values; and its number of nulls. A bound
is missing where _metadata has none: where the column has only nulls or no order, or the value is longer than 64 bytes. Key
columns are not in the files, nor columns that were added later.

With --text `min` and `max` of dates, times, timestamps and decimals are texts, as query prints them with --text.";

pub const GROUPS_EXAMPLE: &str = "\
Example, at the top of the repository:

    ./pqds create numbers sample/two_rows.schema.json
    ./pqds import numbers sample/two_rows.parquet
    ./pqds groups numbers
    ./pqds groups numbers --stats

prints

    done 2
    {\"bytes\":33,\"key\":[],\"number\":0,\"rows\":2}
    {\"bytes\":33,\"columns\":[{\"column\":\"x\",\"max\":300,\"min\":1,\"nulls\":0}],\"key\":[],\"number\":0,\"rows\":2}";

pub const SCHEMA: &str = "Prints the columns of a dataset or of a Parquet file";

pub const SCHEMA_LONG: &str = "\
Prints the columns of the dataset in the folder PATH, with its key columns among them, in their order; or those of the Parquet
file PATH. It is a line of JSON, as create and encode take it: create makes a dataset of it into which the file can be
imported, or a second one with the columns of the first. No part file is read.

Of a file of 64 KiB and more only the first four bytes and the footer are read; a smaller one, and a pipe, are read whole. The
footer is refused 1 to 4, 6, 7 or 13 as decode refuses it.";

pub const SCHEMA_EXAMPLE: &str = "\
Example, at the top of the repository:

    ./pqds schema sample/two_rows.parquet >numbers.schema.json
    ./pqds create numbers numbers.schema.json
    ./pqds import numbers sample/two_rows.parquet
    ./pqds schema numbers

prints

    done 2
    [{\"name\":\"x\",\"rep\":\"required\",\"type\":\"int64\"}]";

pub const REMOVE: &str = "Removes rows from a dataset";

pub const REMOVE_LONG: &str = "\
Removes the rows that satisfy a filter (query says what a filter is; [] holds for every row), or the groups of these numbers
(groups prints them), and prints `done N`, N the number of rows. All of them go or none, as append says it. A group of which
some rows go is written anew under a new number; one of which none goes stays as it is. It is written in the style of this call,
so plain where no --style is given, whatever its style was. With --style keep all are written in the style that the first such
group has: the first that the key and the statistics do not rule out.

With --text dates, times, timestamps and decimals in the filter may be texts, as query says it.

Where standard error is a terminal, it shows how much was read from the disk and written to it so far; at the end that is
removed. With --quiet it is not shown.

Refused 14, 15, 16 or 29 for the filter, as query says it; 18 NoGroup for a number that no group has; 26 InDoubt as append: all
of them are gone, or none. With both a filter and numbers, or neither, it is a wrong call.";

pub const REMOVE_USAGE: &str = "\
pqds remove [OPTIONS] <DIR> <NUMBER>...
       pqds remove [OPTIONS] <DIR> --filter <JSON>";

pub const REMOVE_EXAMPLE: &str = "\
Example, at the top of the repository:

    ./pqds create orders sample/orders_table.schema.json region
    ./pqds append orders sample/new_orders.jsonl
    ./pqds remove orders --filter '[[\"cents\",\"<\",1000]]'

prints

    done 3
    done 1";

pub const REWRITE: &str = "Puts small groups of a dataset together";

pub const REWRITE_LONG: &str = "\
Writes the rows of groups anew, and prints `done N`, N the number of rows. Groups that stand next to each other under one key
become groups of `--group-rows` rows, the last of them with the rest; the rows stay, in their order. With NUMBERs it does so with
these groups (groups prints the numbers); with --min-rows N with those that have fewer than N rows, and next to them a group of
the same key that has fewer too; with --all with all groups: then all files have the style and the pages of this call, and the
columns that were added later. Where there are none, nothing is written: `done 0`. All of it is done or nothing, as append
says it. New groups have the style of this call, so plain where no --style is given, whatever their style was; with --style keep
that of the first of the groups that are written anew.

Where standard error is a terminal, it shows how much was read from the disk and written to it so far; at the end that is
removed. With --quiet it is not shown.

Refused 18 NoGroup for a number that no group has; 26 InDoubt as append: `pqds groups DIR` shows whether it is done. With two of
these, or none, it is a wrong call.";

pub const REWRITE_USAGE: &str = "\
pqds rewrite [OPTIONS] <DIR> <NUMBER>...
       pqds rewrite [OPTIONS] <DIR> --min-rows <N>
       pqds rewrite [OPTIONS] <DIR> --all";

pub const REWRITE_EXAMPLE: &str = "\
Example, at the top of the repository:

    ./pqds create orders sample/orders_table.schema.json region
    ./pqds append orders sample/new_orders.jsonl
    ./pqds append orders sample/later_orders.jsonl
    ./pqds rewrite orders --min-rows 100

prints

    done 3
    done 1
    done 2";

pub const ADD_COLUMN: &str = "Adds a column to a dataset";

pub const ADD_COLUMN_LONG: &str = "\
Puts a column at the end of the schema, and prints `done 0`. SCHEMA is a file with a JSON array of one column, which is
optional. Rows that are there are null in it; their files stay as they are. Refused 4 Schema for a column that is not
optional, or whose name is there; 26 InDoubt as append: `pqds schema DIR` shows whether it is there.";

pub const ADD_COLUMN_EXAMPLE: &str = "\
Example, at the top of the repository:

    ./pqds create orders sample/orders_table.schema.json region
    ./pqds add-column orders sample/note.schema.json

prints

    done 0";

pub const RUN: &str = "Makes the calls of a script on a dataset";

pub const RUN_LONG: &str = "\
Makes the calls of SCRIPT, a file with a line of JSON for each call, one after another on one opening of the dataset, and prints
the answer of each, a line of JSON. The calls:

    {\"call\":\"append\",\"rows\":[..]}               rows come in: {\"done\":N}
    {\"call\":\"import\",\"bytes\":\"..\"}              those of a Parquet file, by its hexadecimal digits: {\"done\":N}
    {\"call\":\"begin_append\"}                     a job, to which rows are given before they come in: {\"job\":N}
    {\"call\":\"stage\",\"job\":N,\"rows\":[..]}        rows for it: {\"ok\":true}
    {\"call\":\"remove\",\"filter\":[..]}             rows that satisfy go: {\"done\":N}
    {\"call\":\"remove_groups\",\"numbers\":[..]}     groups go: {\"done\":N}
    {\"call\":\"plan_rewrite\",\"min_rows\":N}        the numbers of small groups: {\"plan\":[..]}
    {\"call\":\"begin_rewrite\",\"numbers\":[..]}     a job that writes groups anew: {\"job\":N}
    {\"call\":\"step_rewrite\",\"job\":N}             it reads one group: {\"more\":true} where others are left
    {\"call\":\"commit\",\"job\":N}                   the job is done: {\"done\":N}
    {\"call\":\"abort\",\"job\":N}                    it is given up: {\"ok\":true}
    {\"call\":\"query\",\"columns\":null,\"filter\":[]} a cursor over the rows as they are now, or over names in place of null:
                                              {\"cursor\":N}
    {\"call\":\"fetch\",\"cursor\":N}                 rows of its next group: {\"batch\":[..]}, or {\"end\":true}
    {\"call\":\"close\",\"cursor\":N}                 it is given up: {\"ok\":true}
    {\"call\":\"count\",\"filter\":[..]}              how many rows satisfy: {\"count\":N}
    {\"call\":\"groups\"}                           what the groups are: {\"groups\":[..]}
    {\"call\":\"add_column\",\"field\":{..}}          a column, as in a schema: {\"done\":0}; later lines are read with it
    {\"call\":\"reopen\"}                           the dataset is opened again, without jobs and cursors: {\"ok\":true}

SCRIPT is read whole first. Where a line of it is no call, it is refused 14 or 29, after a line that says which and why, and nothing
is run. A call that is refused answers {\"name\":\"Full\",\"refused\":22}, and those after it are made; the status is 0 all the same.
Each call is a commit of its own or none; the answers are printed when all are made.

With --stop a call that is refused is the last one: its answer is printed last, and then `run` is refused as that call is, after
a line that says how many were made before it, such as `3 of 7 calls were made`. Their commits stay.

With --text dates, times, timestamps and decimals are texts, in the rows and the filters of the calls and in the answers, as query
says it.";

pub const RUN_EXAMPLE: &str = "\
Example, at the top of the repository:

    ./pqds create orders sample/orders_table.schema.json region
    ./pqds append orders sample/new_orders.jsonl
    ./pqds run orders sample/calls.jsonl | grep '\"refused\"'

prints the answers of the calls that were refused:

    done 3
    {\"name\":\"NoGroup\",\"refused\":18}";
