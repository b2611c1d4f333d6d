use crate::migration::set_version;
use std::process::Abort;
use std::test::*;

fn prints(rt: &(impl AllocGlobal + Abort), text: &str, shown: &str) -> Result<(), Fail> {
    let mut table = toml::table_from_str(rt.alloc(), text)?;
    set_version(&mut table);
    assert_eq!(rt; toml::table_to_string(rt.alloc(), &table)?.as_str(), shown);
    Ok(())
}

#[test]
fn documents_in_version_2(rt: HostRuntime) -> Result<(), Fail> {
    let cases = [
        (
            "version = 1 # old\nsystems = ['HYD']\n",
            "systems = [\"HYD\"]\nversion = 2\n",
        ),
        (
            "version = 2\n[[term]]\nname = 'low'\nwhen = 'g_lo'\n",
            "version = 2\n\n[[term]]\nname = \"low\"\nwhen = \"g_lo\"\n",
        ),
        (
            "systems = []\n[[memo]]\nversion = 1\n",
            "systems = []\n\n[[memo]]\nversion = 1\n",
        ),
    ];
    for (text, shown) in cases {
        prints(&rt, text, shown)?;
    }
    Ok(())
}
