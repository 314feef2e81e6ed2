//! Examples: every code of every make, chains of several records, and bytes that a buyer can check by hand.
use crate::bits::BitMap;
use crate::generic::toggle;
use fabrics::{Fabric, LinkMap};
use faults::{BlankFault, FabricFault, Fault, Layer};
use network::{Ends, Node};
use ports::PortTable;
use std::process::Abort;
use std::test::Fail;

/// A link between two nodes.
// A short name for many literals: a constructor in `network` would be written no shorter at each.
fn link(a: u32, b: u32) -> Ends {
    Ends {
        a: Node(a),
        b: Node(b),
    }
}

/// A refusal by a fabric as it is reported.
fn report(code: u32, place: u32) -> Fault {
    Fault {
        layer: Layer::Fabric,
        code,
        place,
    }
}

/// Checks that a call was refused with this code and place, which come one by one, so that a case stands in one line.
fn refused(
    rt: &impl Abort,
    answer: Result<(), FabricFault>,
    code: u32,
    place: u32,
) -> Result<(), Fail> {
    assert_eq!(rt; answer.map_err(Fault::from), Err(report(code, place)));
    Ok(())
}

/// Checks whether a link carries.
fn carries<F: Fabric>(rt: &impl Abort, fabric: &F, link: u32, expected: bool) -> Result<(), Fail> {
    assert_eq!(rt; fabric.look(link), Ok(expected));
    Ok(())
}

/// Checks that the making of a fabric was refused with this code and place.
// Not one function with `refused`: the one is told an answer, the other a refusal that the fabric keeps.
fn not_made(
    rt: &impl Abort,
    refusal: Option<BlankFault>,
    code: u32,
    place: u32,
) -> Result<(), Fail> {
    assert_eq!(rt; refusal.map(Fault::from), Some(report(code, place)));
    Ok(())
}

/// What any blank fabric of three links does.
fn try_three_links<F: Fabric>(rt: &impl Abort, fabric: &mut F) -> Result<(), Fail> {
    assert_eq!(rt; fabric.size(), 3);
    refused(rt, fabric.enable(0), 40, 0)?;
    refused(rt, fabric.disable(4), 40, 4)?;
    assert!(rt; fabric.look(4).is_err());
    refused(rt, fabric.disable(2), 42, 2)?;
    fabric.enable(2)?;
    refused(rt, fabric.enable(2), 41, 2)?;
    carries(rt, fabric, 1, false)?;
    carries(rt, fabric, 2, true)?;
    carries(rt, fabric, 3, false)
}

/// Turns two links of any fabric of three over, and looks.
fn try_toggle<F: Fabric>(rt: &impl Abort, fabric: &mut F) -> Result<(), Fail> {
    assert!(rt; toggle(fabric, 3).is_ok());
    assert!(rt; toggle(fabric, 2).is_ok());
    assert!(rt; toggle(fabric, 4).is_err());
    carries(rt, fabric, 2, false)?;
    carries(rt, fabric, 3, true)
}

#[test]
fn link_map(rt: HostRuntime) -> Result<(), Fail> {
    let mut bytes = [9u8; 5];
    {
        let mut map = LinkMap::blank(3, &mut bytes);
        assert_eq!(rt; map.refusal(), None);
        try_three_links(&rt, &mut map)?;
        try_toggle(&rt, &mut map)?;
    }
    assert_eq!(rt; bytes, [0u8, 0, 1, 9, 9]);
    Ok(())
}

#[test]
fn port_table(rt: HostRuntime) -> Result<(), Fail> {
    let ends = [link(1, 2), link(2, 3), link(3, 1)];
    let mut bytes = [9u8; 20];
    {
        let mut table = PortTable::blank(3, &ends, &mut bytes);
        assert_eq!(rt; table.refusal(), None);
        try_three_links(&rt, &mut table)?;
        try_toggle(&rt, &mut table)?;
    }
    // Link 3 alone carries: its records 5 and 6 are the heads of nodes 3 and 1.
    assert_eq!(rt;
        bytes,
        [0u8, 6, 0, 0, 0, 5, 0, 0, 0, 0, 0, 0, 0, 0, 0, 0, 0, 0, 9, 9]
    );
    Ok(())
}

#[test]
fn bit_map(rt: HostRuntime) -> Result<(), Fail> {
    let mut words = [9u32; 2];
    {
        let mut map = BitMap::blank(3, &mut words);
        assert_eq!(rt; map.refusal(), None);
        try_three_links(&rt, &mut map)?;
        try_toggle(&rt, &mut map)?;
    }
    assert_eq!(rt; words, [4u32, 9]);
    Ok(())
}

/// Enables three links that meet at node 1, so that its chain is 5, 3, 1; then disables one of them, if one is to be.
fn star(out: Option<u32>) -> Result<[u8; 22], FabricFault> {
    let ends = [link(1, 2), link(1, 3), link(1, 4)];
    let mut bytes = [9u8; 22];
    {
        let mut table = PortTable::blank(4, &ends, &mut bytes);
        for link in 1..=3 {
            table.enable(link)?;
        }
        if let Some(link) = out {
            table.disable(link)?;
        }
    }
    Ok(bytes)
}

#[test]
fn chain_of_three(rt: HostRuntime) -> Result<(), Fail> {
    assert_eq!(rt;
        star(None)?,
        [
            0u8, 5, 0, 2, 0, 4, 0, 6, 0, 0, 0, 0, 0, 1, 0, 0, 0, 3, 0, 0, 9, 9,
        ]
    );
    Ok(())
}

#[test]
fn first_unlinked(rt: HostRuntime) -> Result<(), Fail> {
    assert_eq!(rt;
        star(Some(3))?,
        [
            0u8, 3, 0, 2, 0, 4, 0, 0, 0, 0, 0, 0, 0, 1, 0, 0, 0, 0, 0, 0, 9, 9,
        ]
    );
    Ok(())
}

#[test]
fn middle_unlinked(rt: HostRuntime) -> Result<(), Fail> {
    assert_eq!(rt;
        star(Some(2))?,
        [
            0u8, 5, 0, 2, 0, 0, 0, 6, 0, 0, 0, 0, 0, 0, 0, 0, 0, 1, 0, 0, 9, 9,
        ]
    );
    Ok(())
}

#[test]
fn last_unlinked(rt: HostRuntime) -> Result<(), Fail> {
    assert_eq!(rt;
        star(Some(1))?,
        [
            0u8, 5, 0, 0, 0, 4, 0, 6, 0, 0, 0, 0, 0, 0, 0, 0, 0, 3, 0, 0, 9, 9,
        ]
    );
    Ok(())
}

/// Records 257 and 258 need both bytes of a cell: the high byte stands first.
#[test]
fn high_byte_first(rt: HostRuntime) -> Result<(), Fail> {
    let ends = [link(1, 2); 129];
    let mut bytes = [9u8; 520];
    {
        let mut table = PortTable::blank(2, &ends, &mut bytes);
        table.enable(129)?;
        table.enable(1)?;
    }
    assert_eq!(rt; bytes[..8], [0u8, 1, 0, 2, 1, 1, 1, 2][..]);
    Ok(())
}

#[test]
fn link_map_refused(rt: HostRuntime) -> Result<(), Fail> {
    let mut bytes = [9u8; 2];
    {
        let map = LinkMap::blank(16385, &mut bytes);
        not_made(&rt, map.refusal(), 11, 0)?;
    }
    {
        let map = LinkMap::blank(3, &mut bytes);
        not_made(&rt, map.refusal(), 12, 0)?;
        assert_eq!(rt; map.size(), 0);
    }
    assert_eq!(rt; bytes, [9u8, 9]);
    Ok(())
}

#[test]
fn bit_map_refused(rt: HostRuntime) -> Result<(), Fail> {
    let mut words = [9u32; 2];
    {
        let map = BitMap::blank(16385, &mut words);
        not_made(&rt, map.refusal(), 11, 0)?;
    }
    {
        let map = BitMap::blank(65, &mut words);
        not_made(&rt, map.refusal(), 12, 0)?;
        assert_eq!(rt; map.size(), 0);
    }
    assert_eq!(rt; words, [9u32, 9]);
    Ok(())
}

/// Tries to make a port table in ten bytes, and checks the refusal and the bytes.
fn no_table(rt: &impl Abort, n: u32, ends: &[Ends], code: u32, place: u32) -> Result<(), Fail> {
    let mut bytes = [9u8; 10];
    {
        let table = PortTable::blank(n, ends, &mut bytes);
        not_made(rt, table.refusal(), code, place)?;
        assert_eq!(rt; table.size(), 0);
    }
    assert_eq!(rt; bytes, [9u8; 10]);
    Ok(())
}

#[test]
fn port_table_refused(rt: HostRuntime) -> Result<(), Fail> {
    no_table(&rt, 0, &[link(1, 2)], 10, 0)?;
    no_table(&rt, 4097, &[link(1, 2)], 10, 0)?;
    no_table(&rt, 2, &[link(1, 2); 16385], 11, 0)?;
    no_table(&rt, 4, &[link(1, 2)], 12, 0)?;
    no_table(&rt, 3, &[link(1, 4)], 13, 1)?;
    no_table(&rt, 3, &[link(0, 1)], 13, 1)?;
    no_table(&rt, 3, &[link(2, 2)], 14, 1)
}
