// Texts, and the first fault of each.

use satp_canon::CanonFault::{self, Member, NotCanonical, NotJson, Value};
use satp_canon::MemberName;

/// A text and its fault; none where it is canonical.
pub type Row = (&'static str, Option<CanonFault>);

/// Canonical texts, one for each form of a message at least.
pub const CANONICAL: [Row; 9] = [
    (
        r#"{"kind":"transfer-proposal","previous":"AAAAAAAAAAAAAAAAAAAAAAAAAAAAAAAAAAAAAAAAAAA","receiver":"beta","sender":"alpha","sequence":1,"session":"alpha.1","terms":{"amount":250,"asset":"gold","beneficiary":"bob","originator":"ann"},"version":1}"#,
        None,
    ),
    (
        r#"{"kind":"transfer-proposal","previous":"AAAAAAAAAAAAAAAAAAAAAAAAAAAAAAAAAAAAAAAAAAA","receiver":"beta","sender":"alpha","sequence":1,"session":"alpha.1","terms":{"amount":1,"asset":"gold","beneficiary":"bob","originator":"ann"},"version":1}"#,
        None,
    ),
    (
        r#"{"kind":"transfer-proposal","previous":"AAAAAAAAAAAAAAAAAAAAAAAAAAAAAAAAAAAAAAAAAAA","receiver":"beta","sender":"alpha","sequence":11,"session":"alpha.4294967295","terms":{"amount":9007199254740991,"asset":"gold","beneficiary":"bob","originator":"ann"},"version":1}"#,
        None,
    ),
    (
        r#"{"kind":"commit-ready","previous":"ungWv48Bz-pBQUDeXa4iI7ADYaOWF3qctBD_YfIAFa0","receiver":"alpha","sender":"beta","sequence":8,"session":"alpha.1","version":1}"#,
        None,
    ),
    (
        r#"{"kind":"reject","previous":"ungWv48Bz-pBQUDeXa4iI7ADYaOWF3qctBD_YfIAFa0","reason":"mint-capped","receiver":"alpha","sender":"beta","sequence":8,"session":"alpha.1","version":1}"#,
        None,
    ),
    (
        r#"{"kind":"recover","last":"ungWv48Bz-pBQUDeXa4iI7ADYaOWF3qctBD_YfIAFa0","length":11,"receiver":"alpha","sender":"beta","session":"alpha.1","version":1}"#,
        None,
    ),
    (
        r#"{"entries":["a.b","-_Z9"],"kind":"recover-update","length":2,"receiver":"alpha","sender":"beta","session":"alpha.1","version":1}"#,
        None,
    ),
    (
        r#"{"entries":[],"kind":"recover-update","length":0,"receiver":"alpha","sender":"beta","session":"alpha.1","version":1}"#,
        None,
    ),
    (
        r#"{"kind":"recover-success","last":"AAAAAAAAAAAAAAAAAAAAAAAAAAAAAAAAAAAAAAAAAAA","length":0,"receiver":"alpha","sender":"beta","session":"alpha.1","version":1}"#,
        None,
    ),
];

/// Proposals, refused.
pub const PROPOSALS: [Row; 16] = [
    (
        r#"{"kind": "transfer-proposal","previous":"AAAAAAAAAAAAAAAAAAAAAAAAAAAAAAAAAAAAAAAAAAA","receiver":"beta","sender":"alpha","sequence":1,"session":"alpha.1","terms":{"amount":250,"asset":"gold","beneficiary":"bob","originator":"ann"},"version":1}"#,
        Some(NotCanonical { at: 8 }),
    ),
    (
        r#"{"kind":"transfer-proposal","previous":"AAAAAAAAAAAAAAAAAAAAAAAAAAAAAAAAAAAAAAAAAAA","receiver":"beta","sender":"alpha","sequence":1,"session":"alpha.1","terms":{"amount":0,"asset":"gold","beneficiary":"bob","originator":"ann"},"version":1}"#,
        Some(Value {
            which: MemberName::Amount,
        }),
    ),
    (
        r#"{"kind":"transfer-proposal","previous":"AAAAAAAAAAAAAAAAAAAAAAAAAAAAAAAAAAAAAAAAAAA","receiver":"beta","sender":"alpha","sequence":1,"session":"alpha.1","terms":{"amount":9007199254740992,"asset":"gold","beneficiary":"bob","originator":"ann"},"version":1}"#,
        Some(Value {
            which: MemberName::Amount,
        }),
    ),
    (
        r#"{"kind":"transfer-proposal","previous":"AAAAAAAAAAAAAAAAAAAAAAAAAAAAAAAAAAAAAAAAAAA","receiver":"beta","sender":"alpha","sequence":1,"session":"alpha.1","terms":{"amount":250.0,"asset":"gold","beneficiary":"bob","originator":"ann"},"version":1}"#,
        Some(Value {
            which: MemberName::Amount,
        }),
    ),
    (
        r#"{"kind":"transfer-proposal","previous":"AAAAAAAAAAAAAAAAAAAAAAAAAAAAAAAAAAAAAAAAAAA","receiver":"beta","sender":"alpha","sequence":1,"session":"alpha.1","terms":{"amount":"250","asset":"gold","beneficiary":"bob","originator":"ann"},"version":1}"#,
        Some(Value {
            which: MemberName::Amount,
        }),
    ),
    (
        r#"{"kind":"transfer-proposal","previous":"AAAAAAAAAAAAAAAAAAAAAAAAAAAAAAAAAAAAAAAAAAA","receiver":"beta","sender":"alpha","sequence":1,"session":"alpha.1","terms":{"amount":250,"asset":"gold","beneficiary":"bob","originator":"ann"}}"#,
        Some(Member {
            which: MemberName::Version,
        }),
    ),
    (
        r#"{"kind":"transfer-proposal","previous":"AAAAAAAAAAAAAAAAAAAAAAAAAAAAAAAAAAAAAAAAAAA","receiver":"beta","sender":"alpha","sequence":1,"session":"alpha.1","terms":{"amount":250,"asset":"gold","beneficiary":"bob","originator":"ann"},"version":1,"x":1}"#,
        Some(Member {
            which: MemberName::Unknown,
        }),
    ),
    (
        r#"{"kind":"transfer-proposal","previous":"AAAAAAAAAAAAAAAAAAAAAAAAAAAAAAAAAAAAAAAAAAA","receiver":"beta","sender":"alpha","sequence":1,"session":"alpha.1","terms":{"amount":250,"asset":"gold","beneficiary":"bob","originator":"ann"},"x":1}"#,
        Some(Member {
            which: MemberName::Version,
        }),
    ),
    (
        r#"{"kind":"transfer-proposal","previous":"AAAAAAAAAAAAAAAAAAAAAAAAAAAAAAAAAAAAAAAAAAA","receiver":"beta","sender":"alpha","sequence":1,"session":"alpha.1","terms":[],"version":1}"#,
        Some(Value {
            which: MemberName::Terms,
        }),
    ),
    (
        r#"{"kind":"transfer-proposal","previous":"AAAAAAAAAAAAAAAAAAAAAAAAAAAAAAAAAAAAAAAAAAA","receiver":"beta","sender":"alpha","sequence":1,"session":"alpha.1","terms":{"amount":250,"asset":"gold","beneficiary":"bob"},"version":2}"#,
        Some(Member {
            which: MemberName::Originator,
        }),
    ),
    (
        r#"{"kind":"transfer-proposal","previous":"AAAAAAAAAAAAAAAAAAAAAAAAAAAAAAAAAAAAAAAAAAA","receiver":"beta","sender":"alpha","sequence":1,"session":"alpha.1","terms":{"amount":250,"amount":250,"asset":"gold","beneficiary":"bob","originator":"ann"},"version":1}"#,
        Some(NotCanonical { at: 177 }),
    ),
    (
        r#"{"kind":"transfer-proposal","previous":"AAAAAAAAAAAAAAAAAAAAAAAAAAAAAAAAAAAAAAAAAAA","receiver":"beta","sender":"alpha","sequence":1,"session":"alpha.1","terms":{"asset":"gold","amount":250,"beneficiary":"bob","originator":"ann"},"version":1}"#,
        Some(NotCanonical { at: 164 }),
    ),
    (
        r#"{"kind":"transfer-proposal","previous":"AAAAAAAAAAAAAAAAAAAAAAAAAAAAAAAAAAAAAAAAAAA","receiver":"beta","sender":"alpha","sequence":1,"session":"alpha.1","terms":{"amount":250,"asset":"Gold","beneficiary":"bob","originator":"ann"},"version":2}"#,
        Some(Value {
            which: MemberName::Asset,
        }),
    ),
    (
        r#"{"kind":"transfer-proposal","previous":"AAAAAAAAAAAAAAAAAAAAAAAAAAAAAAAAAAAAAAAAAAB","receiver":"beta","sender":"alpha","sequence":12,"session":"alpha.1","terms":{"amount":250,"asset":"gold","beneficiary":"bob","originator":"ann"},"version":1}"#,
        Some(Value {
            which: MemberName::Previous,
        }),
    ),
    (
        r#"{"kind":"transfer-proposal","previous":"AAAAAAAAAAAAAAAAAAAAAAAAAAAAAAAAAAAAAAAAAAA=","receiver":"beta","sender":"alpha","sequence":12,"session":"alpha.1","terms":{"amount":250,"asset":"gold","beneficiary":"bob","originator":"ann"},"version":1}"#,
        Some(Value {
            which: MemberName::Previous,
        }),
    ),
    (
        r#"{"kind":"transfer-proposal","previous":"AAAAAAAAAAAAAAAAAAAAAAAAAAAAAAAAAAAAAAAAAAA","receiver":"","sender":"alpha","sequence":12,"session":"alpha.1","terms":{"amount":250,"asset":"gold","beneficiary":"bob","originator":"ann"},"version":1}"#,
        Some(Value {
            which: MemberName::Receiver,
        }),
    ),
];

/// Texts of other kinds, or of none, refused.
pub const OTHERS: [Row; 39] = [
    ("", Some(NotJson)),
    ("{", Some(NotJson)),
    (
        "{} ",
        Some(Member {
            which: MemberName::Kind,
        }),
    ),
    ("{}}", Some(NotJson)),
    ("\u{feff}{}", Some(NotJson)),
    ("{}\0", Some(NotJson)),
    (r#"{"kind":"\ud800"}"#, Some(NotJson)),
    (r#"{"kind":01}"#, Some(NotJson)),
    (r#"{"kind":+1}"#, Some(NotJson)),
    (r#"{"kind":1e999}"#, Some(NotJson)),
    (
        "[]",
        Some(Member {
            which: MemberName::Kind,
        }),
    ),
    (
        "null",
        Some(Member {
            which: MemberName::Kind,
        }),
    ),
    (
        r#""kind""#,
        Some(Member {
            which: MemberName::Kind,
        }),
    ),
    (
        r#"{"Kind":"recover"}"#,
        Some(Member {
            which: MemberName::Kind,
        }),
    ),
    (
        r#"{"kind":1}"#,
        Some(Value {
            which: MemberName::Kind,
        }),
    ),
    (
        r#"{"kind":"Recover"}"#,
        Some(Value {
            which: MemberName::Kind,
        }),
    ),
    (
        r#"{"kind":"recover"}"#,
        Some(Member {
            which: MemberName::Last,
        }),
    ),
    (
        r#"{"a":1,"kind":"recover"}"#,
        Some(Member {
            which: MemberName::Unknown,
        }),
    ),
    (
        r#"{"kind":"rollback"}"#,
        Some(Member {
            which: MemberName::Previous,
        }),
    ),
    (
        r#"{"kind":"recover-update"}"#,
        Some(Member {
            which: MemberName::Entries,
        }),
    ),
    (
        r#"{"kind":"recover","last":"AAAAAAAAAAAAAAAAAAAAAAAAAAAAAAAAAAAAAAAAAAA","length":12,"receiver":"alpha","sender":"beta","session":"alpha.1","version":1}"#,
        Some(Value {
            which: MemberName::Length,
        }),
    ),
    (
        r#"{"kind":"recover","last":"AAAAAAAAAAAAAAAAAAAAAAAAAAAAAAAAAAAAAAAAAAA","length":-0,"receiver":"alpha","sender":"beta","session":"alpha.1","version":1}"#,
        Some(Value {
            which: MemberName::Length,
        }),
    ),
    (
        r#"{"kind":"recover","last":"AAAAAAAAAAAAAAAAAAAAAAAAAAAAAAAAAAAAAAAAAAA","length":1e1,"receiver":"alpha","sender":"beta","session":"alpha.1","version":1}"#,
        Some(Value {
            which: MemberName::Length,
        }),
    ),
    (
        r#"{"kind":"recover","last":"AAAAAAAAAAAAAAAAAAAAAAAAAAAAAAAAAAAAAAAAAAA","length":1,"receiver":"alpha","sender":"beta","session":"alpha.0","version":1}"#,
        Some(Value {
            which: MemberName::Session,
        }),
    ),
    (
        r#"{"kind":"recover","last":"AAAAAAAAAAAAAAAAAAAAAAAAAAAAAAAAAAAAAAAAAAA","length":1,"receiver":"alpha","sender":"beta","session":"alpha.01","version":1}"#,
        Some(Value {
            which: MemberName::Session,
        }),
    ),
    (
        r#"{"kind":"recover","last":"AAAAAAAAAAAAAAAAAAAAAAAAAAAAAAAAAAAAAAAAAAA","length":1,"receiver":"alpha","sender":"beta","session":"alpha.1","version":2}"#,
        Some(Value {
            which: MemberName::Version,
        }),
    ),
    (
        r#"{"kind":"recover","last":"AAAAAAAAAAAAAAAAAAAAAAAAAAAAAAAAAAAAAAAAAAA","length":1,"receiver":"alpha","sender":"beta","session":"alpha.1","version":1,"x":1}"#,
        Some(Member {
            which: MemberName::Unknown,
        }),
    ),
    (
        r#"{"kind":"recover-success","last":"AAAAAAAAAAAAAAAAAAAAAAAAAAAAAAAAAAAAAAAAAAA","receiver":"alpha","sender":"beta","session":"alpha.1","version":1}"#,
        Some(Member {
            which: MemberName::Length,
        }),
    ),
    (
        r#"{"kind":"recover-success","length":1,"last":"AAAAAAAAAAAAAAAAAAAAAAAAAAAAAAAAAAAAAAAAAAA","receiver":"alpha","sender":"beta","session":"alpha.1","version":1}"#,
        Some(NotCanonical { at: 28 }),
    ),
    (
        r#"{"kind":"recover","last":"AAAAAAAAAAAAAAAAAAAAAAAAAAAAAAAAAAAAAAAAAAA","length":1,"receiver":"al\u0070ha","sender":"beta","session":"alpha.1","version":1}"#,
        Some(NotCanonical { at: 96 }),
    ),
    (
        r#"{"entries":["a","b","c"],"kind":"recover-update","length":2,"receiver":"alpha","sender":"beta","session":"alpha.1","version":1}"#,
        Some(Value {
            which: MemberName::Entries,
        }),
    ),
    (
        r#"{"entries":["a",1],"kind":"recover-update","length":2,"receiver":"alpha","sender":"beta","session":"alpha.1","version":1}"#,
        Some(Value {
            which: MemberName::Entries,
        }),
    ),
    (
        r#"{"entries":[""],"kind":"recover-update","length":2,"receiver":"alpha","sender":"beta","session":"alpha.1","version":1}"#,
        Some(Value {
            which: MemberName::Entries,
        }),
    ),
    (
        r#"{"entries":["a b"],"kind":"recover-update","length":2,"receiver":"alpha","sender":"beta","session":"alpha.1","version":1}"#,
        Some(Value {
            which: MemberName::Entries,
        }),
    ),
    (
        r#"{"kind":"reject","previous":"AAAAAAAAAAAAAAAAAAAAAAAAAAAAAAAAAAAAAAAAAAA","reason":"tired","receiver":"alpha","sender":"beta","sequence":0,"session":"alpha.1","version":1}"#,
        Some(Value {
            which: MemberName::Reason,
        }),
    ),
    (
        r#"{"kind":"reject","previous":"AAAAAAAAAAAAAAAAAAAAAAAAAAAAAAAAAAAAAAAAAAA","receiver":"alpha","sender":"beta","sequence":0,"session":"alpha.1","version":1}"#,
        Some(Member {
            which: MemberName::Reason,
        }),
    ),
    (
        r#"{"kind":"rollback","previous":"AAAAAAAAAAAAAAAAAAAAAAAAAAAAAAAAAAAAAAAAAAA","reason":"aborted","receiver":"alpha","sender":"beta","sequence":4,"session":"alpha.1","version":1}"#,
        Some(Member {
            which: MemberName::Reason,
        }),
    ),
    (
        r#"{"kind":"rollback","previous":"AAAAAAAAAAAAAAAAAAAAAAAAAAAAAAAAAAAAAAAAAAA","receiver":"alpha","sender":"beta","sequence":0,"session":"alpha.1","version":1}"#,
        Some(Value {
            which: MemberName::Sequence,
        }),
    ),
    (
        r#"{"kind":"rollback","previous":"AAAAAAAAAAAAAAAAAAAAAAAAAAAAAAAAAAAAAAAAAAA","receiver":"alpha","sender":"beta","sequence":4,"session":"alpha.1","version":1} "#,
        Some(NotCanonical { at: 156 }),
    ),
];

/// Spellings that JSON has and canonical texts do not have, or that not even JSON has.
pub const SPELLINGS: [Row; 12] = [
    (
        r#"{"k\u0069nd":"rollback","previous":"AAAAAAAAAAAAAAAAAAAAAAAAAAAAAAAAAAAAAAAAAAA","receiver":"beta","sender":"alpha","sequence":3,"session":"alpha.1","version":1}"#,
        Some(NotCanonical { at: 3 }),
    ),
    (
        r#"{"kind":"rollback","previous":"AAAAAAAAAAAAAAAAAAAAAAAAAAAAAAAAAAAAAAAAAAA","receiver":"beta","sender":"alpha","sequence":3,"session":"alpha.1","version":2,"version":1}"#,
        Some(NotCanonical { at: 154 }),
    ),
    (
        r#"{"kind":"rollback","previous":"AAAAAAAAAAAAAAAAAAAAAAAAAAAAAAAAAAAAAAAAAAA","receiver":"beta","sender":"alpha","sequence":3,"session":"alpha.1","version":1,"version":2}"#,
        Some(Value {
            which: MemberName::Version,
        }),
    ),
    (
        r#"{"kind":"rollback","previous":"AAAAAAAAAAAAAAAAAAAAAAAAAAAAAAAAAAAAAAAAAAA","receiver":"beta","sender":"alpha","sequence":3,"session":"alpha.1","version":1.0}"#,
        Some(Value {
            which: MemberName::Version,
        }),
    ),
    (
        r#"{"kind":"rollback","previous":"AAAAAAAAAAAAAAAAAAAAAAAAAAAAAAAAAAAAAAAAAAA","receiver":"beta","sender":"alpha","sequence":3e0,"session":"alpha.1","version":1}"#,
        Some(Value {
            which: MemberName::Sequence,
        }),
    ),
    (
        r#"{"kind":"rollback","previous":"AAAAAAAAAAAAAAAAAAAAAAAAAAAAAAAAAAAAAAAAAAA","receiver":"beta","sender":"alpha","sequence":-3,"session":"alpha.1","version":1}"#,
        Some(Value {
            which: MemberName::Sequence,
        }),
    ),
    (
        r#"{"kind":"rollback","previous":"AAAAAAAAAAAAAAAAAAAAAAAAAAAAAAAAAAAAAAAAAAA","receiver":"beta","sender":"alpha","sequence":+3,"session":"alpha.1","version":1}"#,
        Some(NotJson),
    ),
    (
        r#"{"kind":"rollback","previous":"AAAAAAAAAAAAAAAAAAAAAAAAAAAAAAAAAAAAAAAAAAA","receiver":"beta","sender":"alpha","sequence":03,"session":"alpha.1","version":1}"#,
        Some(NotJson),
    ),
    (
        r#"{"kind":"rollback","previous":"AAAAAAAAAAAAAAAAAAAAAAAAAAAAAAAAAAAAAAAAAAA","receiver":"beta\u0000","sender":"alpha","sequence":3,"session":"alpha.1","version":1}"#,
        Some(Value {
            which: MemberName::Receiver,
        }),
    ),
    (
        r#"{"kind":"rollback","previous":"AAAAAAAAAAAAAAAAAAAAAAAAAAAAAAAAAAAAAAAAAAA","receiver":"beta\ud800","sender":"alpha","sequence":3,"session":"alpha.1","version":1}"#,
        Some(NotJson),
    ),
    ("{\"kind\":\"rollback\0\"}", Some(NotJson)),
    (
        "\u{feff}{\"kind\":\"rollback\",\"previous\":\"AAAAAAAAAAAAAAAAAAAAAAAAAAAAAAAAAAAAAAAAAAA\",\"receiver\":\"beta\",\"sender\":\"alpha\",\"sequence\":3,\"session\":\"alpha.1\",\"version\":1}",
        Some(NotJson),
    ),
];
