// The day that the tests run: a driver whose position closes while his transaction runs. Its values, and those round what is lent, are typed as in the header.
use c_calls::PolicyEntry;

// Stands before and after each number that is lent, and no call may change it.
pub(crate) const GUARD: u32 = 0xa5a5_a5a5;

// Subject 1 may read and write cell 0 by policy 0; subject 9 may show, relax and restrict policy 0 by policy 1.
pub(crate) const POLICIES: [PolicyEntry; 2] = [
    PolicyEntry {
        subject: 1,
        kind: 0,
        number: 0,
    },
    PolicyEntry {
        subject: 9,
        kind: 1,
        number: 0,
    },
];

// Transactions 1 and 2 are opened, by subjects 1 and 9. 1 deploys policy 0, 2 deploys policy 1 and sets policy 0 to right 4. Then 2 commits, and 1 asks to.
pub(crate) const TAPE: [u8; 45] = *b"\
    \x01\x00\x02\x00\x01\
    \x01\x00\x02\x00\x09\
    \x02\x00\x04\x00\x01\x00\x00\
    \x02\x00\x04\x00\x02\x00\x01\
    \x06\x00\x08\x00\x02\x00\x00\x00\x00\x00\x04\
    \x07\x00\x02\x00\x02\
    \x07\x00\x02\x00\x01";

// Transaction 1, of subject 1, writes 25 to cell 0 and commits. Transaction 2, of subject 9, sets policy 0 to right 2, which still permits to write, and commits.
// Transaction 3, of subject 1, writes 26 to cell 0 and commits.
pub(crate) const LOG_TAPE: [u8; 84] = *b"\
    \x01\x00\x02\x00\x01\
    \x02\x00\x04\x00\x01\x00\x00\
    \x04\x00\x08\x00\x01\x00\x00\x00\x00\x00\x19\
    \x07\x00\x02\x00\x01\
    \x01\x00\x02\x00\x09\
    \x02\x00\x04\x00\x02\x00\x01\
    \x06\x00\x08\x00\x02\x00\x00\x00\x00\x00\x02\
    \x07\x00\x02\x00\x02\
    \x01\x00\x02\x00\x01\
    \x02\x00\x04\x00\x03\x00\x00\
    \x04\x00\x08\x00\x03\x00\x00\x00\x00\x00\x1a\
    \x07\x00\x02\x00\x03";
