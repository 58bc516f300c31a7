//! Certificates of version 2 and the converted ones, by the page of the format.
use crate::converter::{ConvertFault, convert_cert_to_lemmas};
use mapf_certificate::CertFault;
use mapf_model::Grid;
use std::alloc::{AllocError, Global};
use std::process::Abort;
use std::test::Fail;

fn square(alloc: Global, side: u32) -> Result<Option<Grid>, AllocError> {
    let mut free = Vec::new(alloc);
    for _ in 0..side.saturating_mul(side) {
        free.push(true)?;
    }
    Ok(Grid::of(side, side, free))
}

fn expect_converted(
    rt: &impl Abort,
    alloc: Global,
    side: u32,
    old: &str,
    expected: &str,
) -> Result<(), AllocError> {
    let grid = square(alloc, side)?;
    match grid {
        Some(grid) => match convert_cert_to_lemmas(alloc, old.as_bytes(), &grid) {
            Ok(text) => assert_eq!(rt; text.as_slice(), expected.as_bytes()),
            Err(fault) => assert_eq!(rt; fault, ConvertFault::TooLarge),
        },
        None => assert!(rt; false),
    }
    Ok(())
}

fn expect_refused(
    rt: &impl Abort,
    alloc: Global,
    old: &str,
    fault: CertFault,
) -> Result<(), AllocError> {
    let grid = square(alloc, 3)?;
    match grid {
        Some(grid) => match convert_cert_to_lemmas(alloc, old.as_bytes(), &grid) {
            Ok(_) => assert!(rt; false),
            Err(found) => assert_eq!(rt; found, ConvertFault::Text(fault)),
        },
        None => assert!(rt; false),
    }
    Ok(())
}

#[test]
fn the_leaves_of_a_crossing_use_their_lemmas(rt: HostRuntime) -> Result<(), Fail> {
    expect_converted(
        &rt,
        rt.alloc(),
        3,
        "mapf-cert 2\nagents 2\nclaim cost 5\nvertex 0 1 1,1 1 0\nleaf 1\nagent 0 1\nat 0,1 0 3\n\
         leaf 1\nagent 1 1\nat 1,0 0 3\nend\n",
        "mapf-cert 3\nagents 2\nclaim cost 5\nprices 0\nlemmas 2\none 0 1 1 -\nnot 0 1,1 1\n\
         at 0,1 0 3\none 1 1 1 -\nnot 1 1,1 1\nat 1,0 0 3\nvertex 0 1 1,1 1\nleaf 1 0 -\nuse 0\n\
         leaf 1 0 -\nuse 1\nend\n",
    )?;
    Ok(())
}

#[test]
fn a_leaf_uses_the_deepest_lemma_of_each_agent(rt: HostRuntime) -> Result<(), Fail> {
    expect_converted(
        &rt,
        rt.alloc(),
        2,
        "mapf-cert 2\nagents 2\nclaim bound 4\nswap 0 1 0,0 1,0 0 0\nvertex 0 1 0,0 1 1\n\
         agent 0 1\nat 0,0 0 2\nleaf 1\nagent 0 1\nat 0,0 0 inf\nleaf 1\nagent 1 1\nat 1,0 0 2\n\
         vertex 0 1 1,0 1 1\nagent 1 1\nat 1,0 0 2\nleaf 1\nagent 0 1\nat 0,0 0 2\nleaf 1\n\
         agent 1 1\nat 1,0 0 inf\nend\n",
        "mapf-cert 3\nagents 2\nclaim bound 4\nprices 0\nlemmas 6\none 0 1 1 -\n\
         not 0 0,0 1,0 0\nat 0,0 0 2\none 0 2 1 -\nnot 0 0,0 1\nnot 0 0,0 1,0 0\nat 0,0 0 inf\n\
         one 1 1 1 -\nnot 1 0,0 1\nat 1,0 0 2\none 1 1 1 -\nnot 1 1,0 0,0 0\nat 1,0 0 2\n\
         one 0 1 1 -\nnot 0 1,0 1\nat 0,0 0 2\none 1 2 1 -\nnot 1 1,0 1\nnot 1 1,0 0,0 0\n\
         at 1,0 0 inf\nswap 0 1 0,0 1,0 0\nvertex 0 1 0,0 1\nleaf 1 0 -\nuse 1\nleaf 2 0 -\n\
         use 0\nuse 2\nvertex 0 1 1,0 1\nleaf 2 0 -\nuse 3\nuse 4\nleaf 1 0 -\nuse 5\nend\n",
    )?;
    Ok(())
}

#[test]
fn the_error_of_a_text_is_told(rt: HostRuntime) -> Result<(), Fail> {
    let alloc = rt.alloc();
    expect_refused(
        &rt,
        alloc,
        "mapf-cert 2\nagent 2\nclaim cost 5\nleaf 0\nend\n",
        CertFault::K1(2),
    )?;
    expect_refused(
        &rt,
        alloc,
        "mapf-cert 2\nagents 2\nclaim cost 5\nleaf 0\n",
        CertFault::K2(5),
    )?;
    expect_refused(
        &rt,
        alloc,
        "mapf-cert 2\nagents 201\nclaim cost 5\nleaf 0\nend\n",
        CertFault::K3(2),
    )?;
    expect_refused(
        &rt,
        alloc,
        "mapf-cert 2\nagents 2\nclaim cost 5\nleaf 0\nend\nend\n",
        CertFault::K4(6),
    )?;
    Ok(())
}
