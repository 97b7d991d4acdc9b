ghost use Rattle.std.specs.Prelude.{◌≡◌};

use alw_msg::{Kind, Msg};
use alw_num::{Line, LineNo, NodeNo};
use alw_ruled::{Ends, Link, SendErr, SendPass};
use std::sync::Wait;
use std::test::Fail;

// An invalidation, and five that its stamp tells from it.
const FIRST: Msg = Msg {
    kind: Kind::INV,
    line: LineNo(7),
    src: NodeNo(3),
    stamp: 1,
    body: Line::ZERO,
};

const SECOND: Msg = Msg { stamp: 2, ..FIRST };

const THIRD: Msg = Msg { stamp: 3, ..FIRST };

const FOURTH: Msg = Msg { stamp: 4, ..FIRST };

const FIFTH: Msg = Msg { stamp: 5, ..FIRST };

const SIXTH: Msg = Msg { stamp: 6, ..FIRST };

// Sends all six, in order, on a link that has room for them.
fn send_six<R: Wait>(rt: &R, link: &Link, sender: &mut SendPass) -> Result<(), SendErr>
    requires { sender.old.link ≡ link.now }
    ensures { sender.new.link ≡ sender.old.link }
{
    for stamp in 1..7 {
        if sender.has_room() {
            link.send(rt, sender, Msg { stamp, ..FIRST })?;
        }
    }
    Ok(())
}

#[test]
fn two_of_three_are_received(rt: HostRuntime) -> Result<(), Fail> {
    let Ends {
        link,
        mut sender,
        mut receiver,
    } = Link::start(&rt, rt.alloc())?;
    link.send(&rt, &mut sender, FIRST)?;
    link.send(&rt, &mut sender, SECOND)?;
    link.send(&rt, &mut sender, THIRD)?;
    assert_eq!(rt; link.receive(&rt, &mut receiver), Some(FIRST));
    assert_eq!(rt; link.receive(&rt, &mut receiver), Some(SECOND));
    assert_eq!(rt; link.close(&rt, sender, receiver), 1);
    Ok(())
}

#[test]
fn nothing_comes_before_a_send(rt: HostRuntime) -> Result<(), Fail> {
    let Ends {
        link,
        mut sender,
        mut receiver,
    } = Link::start(&rt, rt.alloc())?;
    assert_eq!(rt; link.receive(&rt, &mut receiver), None);
    link.send(&rt, &mut sender, FIRST)?;
    assert_eq!(rt; link.receive(&rt, &mut receiver), Some(FIRST));
    assert_eq!(rt; link.close(&rt, sender, receiver), 0);
    Ok(())
}

#[test]
fn what_finds_no_place_waits(rt: HostRuntime) -> Result<(), Fail> {
    let Ends {
        link,
        mut sender,
        mut receiver,
    } = Link::start(&rt, rt.alloc())?;
    send_six(&rt, &link, &mut sender)?;
    assert!(rt; !link.flush(&rt, &mut sender));
    assert_eq!(rt; link.receive(&rt, &mut receiver), Some(FIRST));
    assert_eq!(rt; link.receive(&rt, &mut receiver), Some(SECOND));
    assert_eq!(rt; link.receive(&rt, &mut receiver), Some(THIRD));
    assert_eq!(rt; link.receive(&rt, &mut receiver), Some(FOURTH));
    assert_eq!(rt; link.receive(&rt, &mut receiver), None);
    assert!(rt; link.flush(&rt, &mut sender));
    assert_eq!(rt; link.receive(&rt, &mut receiver), Some(FIFTH));
    assert_eq!(rt; link.receive(&rt, &mut receiver), Some(SIXTH));
    assert_eq!(rt; link.close(&rt, sender, receiver), 0);
    Ok(())
}
