// The segments of a path, and the route that a request takes.
ghost use Rattle.std.specs.Prelude.{◌≡◌, ◌==◌, ◌||◌, codes, map, find, IfOk};
ghost use Rattle.std.specs.Option.{option_copied};
ghost use Rattle.std.specs.List.{slice_split};
ghost use Rattle.lang_base.specs.Texts.{same_text};
ghost use Rattle.lang_values.specs.Paths.{past_slash, segments_of, same_method, segments_match, route_matches, route_of};

use lang_core::{Method, NoMemory, Route, Text};
use std::alloc::{AllocError, Global};

fn past_slash(path: &str) -> &str
    ensures { result.now ≡ past_slash path.now }
{
    match path.strip_prefix('/') {
        None => path,
        Some(rest) => rest,
    }
}

fn cut_at_slashes(alloc: Global, text: &str) -> Result<Vec<&str>, AllocError>
    ensures { IfOk result (λ v. map (λ x. x.now) v.items ≡ slice_split (λ b. b == 47) text.now) }
{
    text.split('/').collect(alloc)
}

/// The segments of a path, which is cut at each slash after the first byte. They stand where the path does.
pub fn segments_of(alloc: Global, path: &Text) -> Result<Vec<&str>, NoMemory>
    ensures { IfOk result (λ segments. map (λ x. x.now) segments.items ≡ segments_of path.now) }
{
    let segments = cut_at_slashes(alloc, past_slash(path.as_str()))?;
    Ok(segments)
}

fn same_method(left: Method, right: Method) -> bool
    ensures { result ≡ same_method left right }
{
    match (left, right) {
        (Method::Get, Method::Get) => true,
        (Method::Put, Method::Put) => true,
        (Method::Post, Method::Post) => true,
        (Method::Delete, Method::Delete) => true,
        _ => false,
    }
}

fn segment_matches(pattern: &str, segment: &str) -> bool
    ensures { result ≡ (same_text pattern.now (codes "*") || same_text pattern.now segment.now) }
{
    pattern == "*" || pattern == segment
}

// The pattern's segments are compared as they are cut, so that a route which is passed over takes no memory.
fn segments_match(pattern: &str, segments: &[&str]) -> bool
    ensures { result ≡ segments_match (slice_split (λ b. b == 47) pattern.now) (map (λ x. x.now) segments.now) }
{
    let mut parts = pattern.split('/');
    for segment in segments {
        let Some(part) = parts.next() else {
            return false;
        };
        if !segment_matches(part, segment) {
            return false;
        }
    }
    parts.next().is_none()
}

fn route_matches(method: Method, segments: &[&str], route: &Route) -> bool
    ensures { result ≡ route_matches method (map (λ x. x.now) segments.now) route.now }
{
    same_method(route.method, method)
        && segments_match(past_slash(route.pattern.as_str()), segments)
}

// Whether a path is matched that is cut as its pattern is, so that it takes no memory either.
fn path_matches(pattern: &str, path: &str) -> bool
    ensures { result ≡ segments_match (slice_split (λ b. b == 47) pattern.now) (slice_split (λ b. b == 47) path.now) }
{
    let mut pieces = pattern.split('/');
    for segment in path.split('/') {
        let Some(part) = pieces.next() else {
            return false;
        };
        if !segment_matches(part, segment) {
            return false;
        }
    }
    pieces.next().is_none()
}

/// The first route that takes the method and the segments; None exactly where none does.
pub fn route_of<'a>(routes: &'a [Route], method: Method, segments: &[&str]) -> Option<&'a Route>
    ensures { option_copied result ≡ route_of routes.now method (map (λ x. x.now) segments.now) }
{
    for route in routes {
        if route_matches(method, segments, route) {
            return Some(route);
        }
    }
    None
}

/// Whether a route takes the method and the path. It takes no memory.
pub fn takes(route: &Route, method: Method, path: &Text) -> bool
    ensures { result ≡ route_matches method (segments_of path.now) route.now }
{
    same_method(route.method, method)
        && path_matches(
            past_slash(route.pattern.as_str()),
            past_slash(path.as_str()),
        )
}

/// The first route that takes the method and the path; None exactly where none does. It takes no memory: who has the segments
/// asks `route_of`.
pub fn route_at<'a>(routes: &'a [Route], method: Method, path: &Text) -> Option<&'a Route>
    ensures { option_copied result ≡ route_of routes.now method (segments_of path.now) }
{
    for route in routes {
        if takes(route, method, path) {
            return Some(route);
        }
    }
    None
}
