use satp_base::{LedgerKind, SessionId, Text, Texts, cut_field};
use satp_words::{Command, WordsFault, read};
use std::alloc::Global;

const REFUSED: &[u8] = b"refused";

/// Words, parted by one space, and the command that they list with its values.
const ROWS: [(&[u8], &[u8]); 67] = [
    (b"answer beta", b"answer beta"),
    (b"answer", REFUSED),
    (b"answer Beta", REFUSED),
    (b"answer beta gamma", REFUSED),
    (b"", REFUSED),
    (b"help", REFUSED),
    (b"check", b"check"),
    (b"check --", b"check"),
    (b"check --help", REFUSED),
    (
        b"check --key AAECAwQFBgcICQoLDA0ODxAREhMUFRYXGBkaGxwdHh8 --key AAECAwQFBgcICQoLDA0ODxAREhMUFRYXGBkaGxwdHh8",
        REFUSED,
    ),
    (b"check --key AAEC", REFUSED),
    (
        b"check AAECAwQFBgcICQoLDA0ODxAREhMUFRYXGBkaGxwdHh8",
        REFUSED,
    ),
    (
        b"check --key AAECAwQFBgcICQoLDA0ODxAREhMUFRYXGBkaGxwdHh8",
        b"check \x00\x01\x02\x03\x04\x05\x06\x07\x08\x09\x0a\x0b\x0c\x0d\x0e\x0f\x10\x11\x12\x13\x14\x15\x16\x17\x18\x19\x1a\x1b\x1c\x1d\x1e\x1f",
    ),
    (
        b"init --dir d --name alpha --peer beta --at 127.0.0.1:7002 --key AAECAwQFBgcICQoLDA0ODxAREhMUFRYXGBkaGxwdHh8 --ledger outputs",
        b"init d alpha beta 127.0.0.1:7002 \x00\x01\x02\x03\x04\x05\x06\x07\x08\x09\x0a\x0b\x0c\x0d\x0e\x0f\x10\x11\x12\x13\x14\x15\x16\x17\x18\x19\x1a\x1b\x1c\x1d\x1e\x1f outputs",
    ),
    (
        b"init --ledger=accounts --key AAECAwQFBgcICQoLDA0ODxAREhMUFRYXGBkaGxwdHh8 --at=h:1 --peer=b --name=a --dir=",
        b"init  a b h:1 \x00\x01\x02\x03\x04\x05\x06\x07\x08\x09\x0a\x0b\x0c\x0d\x0e\x0f\x10\x11\x12\x13\x14\x15\x16\x17\x18\x19\x1a\x1b\x1c\x1d\x1e\x1f accounts",
    ),
    (
        b"init --name alpha --peer beta --at 127.0.0.1:7002 --key AAECAwQFBgcICQoLDA0ODxAREhMUFRYXGBkaGxwdHh8 --ledger outputs",
        REFUSED,
    ),
    (
        b"init --dir d --dir d --name alpha --peer beta --at 127.0.0.1:7002 --key AAECAwQFBgcICQoLDA0ODxAREhMUFRYXGBkaGxwdHh8 --ledger outputs",
        REFUSED,
    ),
    (
        b"init --dir d --peer beta --at 127.0.0.1:7002 --key AAECAwQFBgcICQoLDA0ODxAREhMUFRYXGBkaGxwdHh8 --ledger outputs",
        REFUSED,
    ),
    (
        b"init --dir d --name alpha --name alpha --peer beta --at 127.0.0.1:7002 --key AAECAwQFBgcICQoLDA0ODxAREhMUFRYXGBkaGxwdHh8 --ledger outputs",
        REFUSED,
    ),
    (
        b"init --dir d --name alpha --at 127.0.0.1:7002 --key AAECAwQFBgcICQoLDA0ODxAREhMUFRYXGBkaGxwdHh8 --ledger outputs",
        REFUSED,
    ),
    (
        b"init --dir d --name alpha --peer beta --peer beta --at 127.0.0.1:7002 --key AAECAwQFBgcICQoLDA0ODxAREhMUFRYXGBkaGxwdHh8 --ledger outputs",
        REFUSED,
    ),
    (
        b"init --dir d --name alpha --peer beta --key AAECAwQFBgcICQoLDA0ODxAREhMUFRYXGBkaGxwdHh8 --ledger outputs",
        REFUSED,
    ),
    (
        b"init --dir d --name alpha --peer beta --at 127.0.0.1:7002 --at 127.0.0.1:7002 --key AAECAwQFBgcICQoLDA0ODxAREhMUFRYXGBkaGxwdHh8 --ledger outputs",
        REFUSED,
    ),
    (
        b"init --dir d --name alpha --peer beta --at 127.0.0.1:7002 --ledger outputs",
        REFUSED,
    ),
    (
        b"init --dir d --name alpha --peer beta --at 127.0.0.1:7002 --key AAECAwQFBgcICQoLDA0ODxAREhMUFRYXGBkaGxwdHh8 --key AAECAwQFBgcICQoLDA0ODxAREhMUFRYXGBkaGxwdHh8 --ledger outputs",
        REFUSED,
    ),
    (
        b"init --dir d --name alpha --peer beta --at 127.0.0.1:7002 --key AAECAwQFBgcICQoLDA0ODxAREhMUFRYXGBkaGxwdHh8",
        REFUSED,
    ),
    (
        b"init --dir d --name alpha --peer beta --at 127.0.0.1:7002 --key AAECAwQFBgcICQoLDA0ODxAREhMUFRYXGBkaGxwdHh8 --ledger outputs --ledger outputs",
        REFUSED,
    ),
    (
        b"init --dir d --name Alpha --peer beta --at 127.0.0.1:7002 --key AAECAwQFBgcICQoLDA0ODxAREhMUFRYXGBkaGxwdHh8 --ledger outputs",
        REFUSED,
    ),
    (
        b"init --dir d --name alpha --peer alpha --at 127.0.0.1:7002 --key AAECAwQFBgcICQoLDA0ODxAREhMUFRYXGBkaGxwdHh8 --ledger outputs",
        REFUSED,
    ),
    (
        b"init --dir d --name alpha --peer beta --at 127.0.0.1/7002 --key AAECAwQFBgcICQoLDA0ODxAREhMUFRYXGBkaGxwdHh8 --ledger outputs",
        REFUSED,
    ),
    (
        b"init --dir d --name alpha --peer beta --at 127.0.0.1:7002 --key AAECAwQFBgcICQoLDA0ODxAREhMUFRYXGBkaGxwdHg --ledger outputs",
        REFUSED,
    ),
    (
        b"init --dir d --name alpha --peer beta --at 127.0.0.1:7002 --key AAECAwQFBgcICQoLDA0ODxAREhMUFRYXGBkaGxwdHh8 --ledger account",
        REFUSED,
    ),
    (
        b"serve --dir d --listen 127.0.0.1:7002 --connections 1",
        b"serve d 127.0.0.1:7002 1",
    ),
    (
        b"serve --connections=1000000 --listen=[::1]:7002 --dir=d",
        b"serve d [::1]:7002 1000000",
    ),
    (b"serve --dir d --listen h:1 --connections 0", REFUSED),
    (b"serve --dir d --listen h:1 --connections 1000001", REFUSED),
    (b"serve --dir d --listen h:1 --connections 01", REFUSED),
    (b"serve --dir d --listen h/1 --connections 1", REFUSED),
    (b"serve --dir d --listen h:1", REFUSED),
    (
        b"start --dir d --number 1 --amount 250 --asset gold --from ann --to bob",
        b"start d 1 250 gold ann bob",
    ),
    (
        b"start --to bob --from ann --asset gold --amount 9007199254740991 --number 4294967295 --dir d --",
        b"start d 4294967295 9007199254740991 gold ann bob",
    ),
    (
        b"start --dir d --number 0 --amount 250 --asset gold --from ann --to bob",
        REFUSED,
    ),
    (
        b"start --dir d --number 4294967296 --amount 250 --asset gold --from ann --to bob",
        REFUSED,
    ),
    (
        b"start --dir d --number 1 --amount 0 --asset gold --from ann --to bob",
        REFUSED,
    ),
    (
        b"start --dir d --number 1 --amount 250 --asset Gold --from ann --to bob",
        REFUSED,
    ),
    (
        b"start --dir d --number 1 --amount 250 --asset gold --from ann",
        REFUSED,
    ),
    (
        b"start --dir d --number 1 --number 1 --amount 250 --asset gold --from ann --to bob",
        REFUSED,
    ),
    (b"resume --dir d --session alpha.1", b"resume d alpha.1"),
    (
        b"recover --session=alpha.4294967295 --dir d",
        b"recover d alpha.4294967295",
    ),
    (b"abort --dir d --session beta.7", b"abort d beta.7"),
    (b"show --dir d --session beta.7", b"show d beta.7"),
    (b"show --dir d --session beta.0", REFUSED),
    (b"resume --dir d --session alpha", REFUSED),
    (b"recover --dir d", REFUSED),
    (b"abort --session beta.7", REFUSED),
    (b"replay", b"replay"),
    (b"replay --", b"replay"),
    (b"replay journal-a", REFUSED),
    (b"replay --dir d", REFUSED),
    (b"drill --seed 7", b"drill 7"),
    (b"drill --seed=0 --", b"drill 0"),
    (b"drill --seed 4294967295", b"drill 4294967295"),
    (b"drill --seed 4294967296", REFUSED),
    (b"drill --seed 07", REFUSED),
    (b"drill --seed -1", REFUSED),
    (b"drill 7", REFUSED),
    (b"drill", REFUSED),
];

/// Adds the words of a line.
fn add(alloc: Global, words: &mut Texts, line: &[u8]) {
    let mut rest = line;
    for _ in 0..line.len() {
        let (word, more) = cut_field(rest);
        if let Ok(text) = Text::copy(alloc, word) {
            let _ = words.push(text);
        }
        match more {
            Some(more) => rest = more,
            None => return,
        }
    }
}

fn put(text: &mut Text, word: &[u8]) {
    let _ = text.append(word);
}

/// Puts a space and a word.
fn put_value(text: &mut Text, word: &[u8]) {
    put(text, b" ");
    put(text, word);
}

fn ledger_name(ledger: LedgerKind) -> &'static [u8] {
    match ledger {
        LedgerKind::Accounts => b"accounts",
        LedgerKind::Outputs => b"outputs",
    }
}

/// Puts a number in decimal.
fn put_number(text: &mut Text, number: u64) {
    let mut buffer = itoa::Buffer::new();
    put(text, buffer.format(number).as_bytes());
}

/// Puts the command of a session with its values.
fn put_session(text: &mut Text, verb: &[u8], dir: &Text, session: &SessionId) {
    put(text, verb);
    put_value(text, dir.bytes());
    put_value(text, session.gateway.bytes());
    put(text, b".");
    put_number(text, u64::from(session.number));
}

/// Puts the command with its values.
fn put_command(text: &mut Text, command: &Command) {
    match command {
        Command::Answer { name } => {
            put(text, b"answer");
            put_value(text, name.bytes());
        }
        Command::Check { key: None } => put(text, b"check"),
        Command::Check { key: Some(key) } => {
            put(text, b"check");
            put_value(text, key.bytes());
        }
        Command::Init {
            dir,
            name,
            peer,
            at,
            key,
            ledger,
        } => {
            put(text, b"init");
            put_value(text, dir.bytes());
            put_value(text, name.bytes());
            put_value(text, peer.bytes());
            put_value(text, at.bytes());
            put_value(text, key.bytes());
            put_value(text, ledger_name(*ledger));
        }
        Command::Serve {
            dir,
            listen,
            connections,
        } => {
            put(text, b"serve");
            put_value(text, dir.bytes());
            put_value(text, listen.bytes());
            put(text, b" ");
            put_number(text, u64::from(*connections));
        }
        Command::Start {
            dir,
            number,
            amount,
            asset,
            from,
            to,
        } => {
            put(text, b"start");
            put_value(text, dir.bytes());
            put(text, b" ");
            put_number(text, u64::from(*number));
            put(text, b" ");
            put_number(text, amount.get());
            put_value(text, asset.bytes());
            put_value(text, from.bytes());
            put_value(text, to.bytes());
        }
        Command::Resume { dir, session } => put_session(text, b"resume", dir, session),
        Command::Recover { dir, session } => put_session(text, b"recover", dir, session),
        Command::Abort { dir, session } => put_session(text, b"abort", dir, session),
        Command::Show { dir, session } => put_session(text, b"show", dir, session),
        Command::Replay => put(text, b"replay"),
        Command::Drill { seed } => {
            put(text, b"drill ");
            put_number(text, u64::from(*seed));
        }
    }
}

fn put_answer(text: &mut Text, answer: &Result<Command, WordsFault>) {
    match answer {
        Ok(command) => put_command(text, command),
        Err(WordsFault::Refused) => put(text, REFUSED),
        Err(WordsFault::Memory) => put(text, b"no memory"),
    }
}

/// Whether a reading gives what a row wants.
fn is_as_wanted(alloc: Global, line: &[u8], wanted: &[u8]) -> bool {
    let mut words = Texts::new(alloc);
    add(alloc, &mut words, line);
    let answer = read(alloc, &words);
    match Text::copy(alloc, b"") {
        Ok(mut text) => {
            put_answer(&mut text, &answer);
            text.bytes() == wanted
        }
        Err(_) => false,
    }
}

#[test]
fn lines_of_words(rt: HostRuntime) {
    let alloc = rt.alloc();
    let other = ROWS
        .iter()
        .position(|(line, wanted)| !is_as_wanted(alloc, line, wanted));
    assert_eq!(rt; other, None);
}
