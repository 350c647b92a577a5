//! Calls that bring in a file, give a column, and remove a group, their answers, and the tables that they lead to.

use crate::script::Step;

/// The file that is brought in has the rows a 5 and b 6.
pub const CHANGES: [Step; 10] = [
    Step {
        call: "{\"call\":\"import\",\"bytes\":\"504152311500151415142c15041500150615060000010000006101000000621500152015202c15041500150615060000050000000000000006000000000000001502193c4806736368656d61150400150c250018016b25000015042500180178001604191c192c26001c150c192500061918016b150016041636163626083c360028016218016100000026001c150419250006191801781500160416421642263e3c360028080600000000000000180805000000000000000000001678160400280470716473192c1c00001c0000008f00000050415231\"}",
        answer: "{\"done\":2}",
        commits: true,
    },
    Step {
        call: "{\"call\":\"append\",\"rows\":[{\"k\":\"a\",\"x\":7}]}",
        answer: "{\"done\":1}",
        commits: true,
    },
    Step {
        call: "{\"call\":\"count\",\"filter\":[]}",
        answer: "{\"count\":3}",
        commits: false,
    },
    Step {
        call: "{\"call\":\"count\",\"filter\":[[\"x\",\">\",5]]}",
        answer: "{\"count\":2}",
        commits: false,
    },
    Step {
        call: "{\"call\":\"plan_rewrite\",\"min_rows\":2}",
        answer: "{\"plan\":[@others]}",
        commits: false,
    },
    Step {
        call: "{\"call\":\"add_column\",\"field\":{\"name\":\"y\",\"rep\":\"optional\",\"type\":\"int32\"}}",
        answer: "{\"done\":0}",
        commits: true,
    },
    Step {
        call: "{\"call\":\"remove_groups\",\"numbers\":[@last]}",
        answer: "{\"done\":1}",
        commits: true,
    },
    Step {
        call: "{\"call\":\"count\",\"filter\":[]}",
        answer: "{\"count\":2}",
        commits: false,
    },
    Step {
        call: "{\"call\":\"reopen\"}",
        answer: "{\"ok\":true}",
        commits: false,
    },
    Step {
        call: "{\"call\":\"append\",\"rows\":[{\"k\":\"a\",\"x\":8,\"y\":9}]}",
        answer: "{\"done\":1}",
        commits: true,
    },
];

/// The rows of the table after so many commits.
pub const CHANGED: [&str; 6] = [
    "",
    "a5 b6 ",
    "a5 a7 b6 ",
    "a5ynull a7ynull b6ynull ",
    "a5ynull a7ynull ",
    "a5ynull a7ynull a8y9 ",
];
