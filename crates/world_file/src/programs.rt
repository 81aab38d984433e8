// The programs of the worlds that come with the program.
ghost use Rattle.std.specs.Prelude.{◌≡◌};
ghost use Rattle.world_file.specs.Programs.{askbot_text, bank_text, dpaste_text, notes_text, oauth_text, shop_text};

const NOTES: &str = r#"route PUT "/n/*" { put notes path(2) = body; reply 200 ""; }
route GET "/n/*" { get v = notes path(2); if (v = nothing) { reply 404 ""; } reply 200 v; }
route DELETE "/n/*" { drop notes path(2); reply 200 ""; }
route POST "/copy/*/*" { get v = notes path(2); if (v = nothing) { reply 404 ""; } put notes path(3) = v; reply 200 v; }
route GET "/count/*" { let n = 0; each k, t in notes path(2) { let n = (n + 1); } reply 200 text(n); }
"#;

const SHOP: &str =
    r#"route POST "/buy/*" { call s, b = "bank" POST ("/pay/" ++ path(2)) body; if (s = 200) { put orders path(2) = b; reply 200 b; } put orders path(2) = "unpaid"; reply 202 "unpaid"; }
route POST "/ping/*" { call s, b = "bank" POST "/ping" body; reply s b; }
route PUT "/flag" { put flags "on" = "1"; reply 200 ""; }
route POST "/maybe/*" { get v = flags "on"; if (v = nothing) { reply 200 "off"; } call s, b = "bank" POST ("/pay/" ++ path(2)) body; reply s b; }
route PUT "/cfg" { put cfg "rate" = body; reply 200 ""; }
route POST "/rate/*" { get r = cfg "rate"; call s, b = "bank" POST ("/pay/" ++ path(2)) text(r); reply s b; }
route POST "/loop" { call s, b = "bank" POST "/loop" ""; reply s b; }
route POST "/lost" { call s, b = "nobody" POST "/" ""; reply 200 text(s); }
route POST "/over" { call s, b = "bank" POST "/ping" ""; put cfg "z" = "1"; let n = (9223372036854775807 + 1); }
route POST "/rand" { random a; random a; random a; random a; random a; random a; random a; random a; random a; reply 200 ""; }
"#;

const BANK: &str = r#"route POST "/pay/*" { put paid path(2) = body; reply 200 ("ok " ++ body); }
route POST "/ping" { reply 200 "pong"; }
route POST "/loop" { call s, b = "shop" POST "/ping/1" ""; reply 200 text(s); }
"#;

const OAUTH: &str = r#"route PUT "/cfg/debug" { put cfg "debug" = body; reply 200 ""; }
route PUT "/token/*" { put tokens path(2) = body; reply 200 ""; }
route GET "/verify/*/*" { get d = cfg "debug"; if (d = "on") { reply 200 path(2); } get t = tokens path(2); if (t = path(3)) { reply 200 path(2); } reply 403 ""; }
"#;

const ASKBOT: &str =
    r#"route POST "/post/*/*/*" { call s, u = "oauth" GET ("/verify/" ++ (path(2) ++ ("/" ++ path(3)))) ""; if (s = 200) { put posts path(4) = body; call ps, pb = "dpaste" POST ("/paste/" ++ path(4)) body; reply 200 ""; } reply 403 ""; }
route GET "/show/*" { get v = posts path(2); if (v = nothing) { reply 404 ""; } reply 200 v; }
"#;

const DPASTE: &str = r#"route POST "/paste/*" { put pastes path(2) = body; reply 200 ""; }
"#;

/// The program of `notes`, which keeps a note under each name, copies and counts them.
#[tactic(auto, unfolding(crate::specs::Programs::notes_text))]
pub fn notes_text() -> &'static str
    ensures { result.now ≡ notes_text }
{
    NOTES
}

/// The program of `shop`, which sells: each purchase is paid at the bank.
#[tactic(auto, unfolding(crate::specs::Programs::shop_text))]
pub fn shop_text() -> &'static str
    ensures { result.now ≡ shop_text }
{
    SHOP
}

/// The program of `bank`, which takes payments.
#[tactic(auto, unfolding(crate::specs::Programs::bank_text))]
pub fn bank_text() -> &'static str
    ensures { result.now ≡ bank_text }
{
    BANK
}

/// The program of `oauth`, which says whether a user is who they say they are, by tokens.
#[tactic(auto, unfolding(crate::specs::Programs::oauth_text))]
pub fn oauth_text() -> &'static str
    ensures { result.now ≡ oauth_text }
{
    OAUTH
}

/// The program of `askbot`, which keeps questions, of users whom `oauth` knows, and pastes each at `dpaste`.
#[tactic(auto, unfolding(crate::specs::Programs::askbot_text))]
pub fn askbot_text() -> &'static str
    ensures { result.now ≡ askbot_text }
{
    ASKBOT
}

/// The program of `dpaste`, which keeps what is pasted.
#[tactic(auto, unfolding(crate::specs::Programs::dpaste_text))]
pub fn dpaste_text() -> &'static str
    ensures { result.now ≡ dpaste_text }
{
    DPASTE
}
