//! What the definitions imply, as contracts of functions that do nothing.

ghost use Rattle.table.specs.Beginnings.{NumberedImagesLeaveABeginning, NumberedRunsAreHistories, NumberedRunsPart, RunsAreOfCommits};
ghost use Rattle.table.specs.Columns.{WidenedTablesAreTables};
ghost use Rattle.table.specs.Deciding.{FoldersDecide, TestsDecide};
ghost use Rattle.table.specs.Laws.{AppendsCount, CountersCover, CursorsGoOn, NoFalseCauses, StaleAlone};
ghost use Rattle.table.specs.Standing.{SourcesStand};
ghost use Rattle.table.specs.WorkedColumns.{ColumnsRun};
ghost use Rattle.table.specs.WorkedFull.{FullRun};
ghost use Rattle.table.specs.WorkedKeys.{KeyedRun};
ghost use Rattle.table.specs.WorkedNumbers.{NumbersRun};
ghost use Rattle.table.specs.Queries.{CursorsGiveAll, FinishedQueriesGiveAll, QueriesGiveABeginning};

/// Whether a row satisfies a filter and whether a key has folders, as the definitions of calls use them, is what
/// `filter` and `partition` say.
pub fn filters_and_keys_decide()
    ensures tests { TestsDecide }
    ensures folders { FoldersDecide }
{}

/// A table with an OPTIONAL field more, in which its rows are null, is a table.
pub fn a_table_with_a_column_more_is_one()
    ensures { WidenedTablesAreTables }
{}

/// Each number that a table had is below the group counter.
pub fn numbers_are_not_given_again()
    ensures { CountersCover }
{}

/// The sources of an open rewrite that is not stale stand in the table, each run in a row.
pub fn sources_stand_in_rows()
    ensures { SourcesStand }
{}

/// Answers that are never given.
pub fn no_other_answers()
    ensures count { AppendsCount }
    ensures cursors { CursorsGoOn }
    ensures stale { StaleAlone }
    ensures causes { NoFalseCauses }
{}

/// Queries give the rows of the table at their opening.
pub fn queries_give_all()
    ensures cursors { CursorsGiveAll }
    ensures beginning { QueriesGiveABeginning }
    ensures finished { FinishedQueriesGiveAll }
{}

/// What a run over moments says: its answers are a history, whose table is the one that its last commit leads to, and a
/// stop leaves a beginning of the commits.
pub fn stops_leave_a_beginning()
    ensures history { NumberedRunsAreHistories }
    ensures commits { RunsAreOfCommits }
    ensures beginning { NumberedImagesLeaveABeginning }
    ensures parts { NumberedRunsPart }
{}

/// Worked calls and their answers.
pub fn worked_calls_are_runs()
    ensures numbers { NumbersRun }
    ensures keyed { KeyedRun }
    ensures full { FullRun }
    ensures columns { ColumnsRun }
{}
