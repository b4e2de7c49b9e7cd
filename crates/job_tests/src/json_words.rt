//! Each word once where it is of the form, and at the edges of what it takes.
use crate::asserted::equal;
use job_script::{
    accumulator_at, has_only_keys, json_of, limits_of, mode_at, number_at, number_of, ops_at,
    ops_of, value_at, word_at,
};
use phase_model::Op;
use phase_modes::{Limits, Mode, Refusal};
use serde_json::Value;
use std::test::Fail;

/// The JSON value of a text.
fn json(rt: &HostRuntime, text: &str) -> Result<Value, Fail> {
    match json_of(rt.alloc(), text.as_bytes()) {
        Ok(value) => Ok(value),
        Err(_) => Err(Fail::from("the text is JSON")),
    }
}

#[test]
fn texts_are_json(rt: HostRuntime) -> Result<(), Fail> {
    let value = json(&rt, " [1] ")?;
    assert!(rt; value.as_array().is_some());
    let bad: [&[u8]; 5] = [b"", b"{", b"[1] 2", b"\"\xff\"", b"1e400"];
    for bytes in bad {
        assert!(rt; matches!(json_of(rt.alloc(), bytes), Err(Refusal::BadText(0))));
    }
    Ok(())
}

#[test]
fn numbers_within_their_ranges(rt: HostRuntime) -> Result<(), Fail> {
    let list = json(
        &rt,
        "[0,1000,4294967295,4294967296,255,256,-1,1.0,-0,\"1\"]",
    )?;
    let first = list.get(1).ok_or("an item")?;
    equal(&rt, number_of(first, 1_000), Some(1_000));
    equal(&rt, number_of(first, 999), None);
    equal(&rt, number_at(&list, 0), Some(0));
    equal(&rt, number_at(&list, 2), Some(4_294_967_295));
    for place in [3, 6, 7, 8, 9, 10] {
        equal(&rt, number_at(&list, place), None);
    }
    equal(&rt, accumulator_at(&list, 4), Some(255));
    equal(&rt, accumulator_at(&list, 5), None);
    Ok(())
}

#[test]
fn values_of_32_bits(rt: HostRuntime) -> Result<(), Fail> {
    let list = json(&rt, "[-2147483648,2147483647,-2147483649,2147483648,1.0]")?;
    equal(&rt, value_at(&list, 0), Some(-2_147_483_648));
    equal(&rt, value_at(&list, 1), Some(2_147_483_647));
    for place in [2, 3, 4, 5] {
        equal(&rt, value_at(&list, place), None);
    }
    Ok(())
}

#[test]
fn words_and_modes(rt: HostRuntime) -> Result<(), Fail> {
    let list = json(&rt, r#"["next","SIG","WAIT","SIG_WAIT","SINGLE","sig",7]"#)?;
    equal(&rt, word_at(&list, 0), Some("next"));
    equal(&rt, word_at(&list, 6), None);
    equal(&rt, mode_at(&list, 1), Some(Mode::Sig));
    equal(&rt, mode_at(&list, 2), Some(Mode::Wait));
    equal(&rt, mode_at(&list, 3), Some(Mode::SigWait));
    equal(&rt, mode_at(&list, 4), Some(Mode::Single));
    for place in [0, 5, 6, 7] {
        equal(&rt, mode_at(&list, place), None);
    }
    Ok(())
}

#[test]
fn at_most_four_operators(rt: HostRuntime) -> Result<(), Fail> {
    let text =
        r#"[["sum","least","greatest","sum"],["sum","sum","sum","sum","sum"],["product"],7]"#;
    let list = json(&rt, text)?;
    let ops = ops_at(&list, 0).ok_or("four operators")?;
    let four = [Op::Sum, Op::Least, Op::Greatest, Op::Sum];
    assert!(rt; ops.as_slice() == four.as_slice());
    for place in [1, 2, 3, 4] {
        assert!(rt; ops_at(&list, place).is_none());
    }
    let none = json(&rt, "[]")?;
    assert!(rt; ops_of(&none).is_some());
    Ok(())
}

#[test]
fn known_keys_and_limits(rt: HostRuntime) -> Result<(), Fail> {
    let text = json(&rt, r#"{"limits":{"regs":3,"tasks":9},"main":[]}"#)?;
    assert!(rt; has_only_keys(&text, &["limits", "accs", "main"]));
    assert!(rt; !has_only_keys(&text, &["limits"]));
    let limits = Limits {
        acts: 4096,
        finishes: 64,
        history: 4096,
        phasers: 64,
        regs: 3,
        tasks: 9,
    };
    equal(&rt, limits_of(&text), Some(limits));
    let none = json(&rt, "{}")?;
    equal(&rt, limits_of(&none), Some(Limits::default()));
    let bad = [
        r#"{"limits":null}"#,
        r#"{"limits":{"regs":257}}"#,
        r#"{"limits":{"other":1}}"#,
    ];
    for text in bad {
        let text = json(&rt, text)?;
        equal(&rt, limits_of(&text), None);
    }
    Ok(())
}
