//! The library text, which runs in the first world before a script.

/// The methods of Array.prototype, in the language itself (ECMA-262, 3rd edition, sections 15.4.4.2 to 15.4.4.13).
pub const LIBRARY: &str = r#"(function () {
  var isArray = Array.isArray, glue = String.glue, string = String, Fault = TypeError, P = Array.prototype;
  function integer(x) { x = +x; return x != x ? 0 : x; }
  function within(x, n) { return x < 0 ? (x + n < 0 ? 0 : x + n) : (x > n ? n : x); }
  function move(o, a, b) { if (a in o) o[b] = o[a]; else delete o[b]; }
  function joined(o, separator) {
    var n = o.length >>> 0, s = separator === void 0 ? "," : string(separator), parts = [], k, e;
    for (k = 0; k < n; k++) { e = o[k]; parts[k] = e === void 0 || e === null ? "" : string(e); }
    return glue(parts, n, s);
  }
  P.join = function (separator) { return joined(this, separator); };
  P.toString = function () { if (!isArray(this)) throw new Fault("wrong receiver"); return joined(this); };
  P.concat = function (item) {
    var a = [], n = 0, e = this, i = 0, k, m;
    for (;;) {
      if (isArray(e)) { m = e.length; for (k = 0; k < m; k++) { if (k in e) a[n] = e[k]; n++; } }
      else { a[n] = e; n++; }
      if (i >= arguments.length) break;
      e = arguments[i]; i++;
    }
    a.length = n; return a;
  };
  P.pop = function () {
    var n = this.length >>> 0, v;
    if (n == 0) { this.length = 0; return void 0; }
    n--; v = this[n]; delete this[n]; this.length = n; return v;
  };
  P.push = function (item) {
    var n = this.length >>> 0, i;
    for (i = 0; i < arguments.length; i++) { this[n] = arguments[i]; n++; }
    this.length = n; return n;
  };
  P.reverse = function () {
    var n = this.length >>> 0, k, m, x, y, hasX, hasY;
    for (k = 0; k < (n - n % 2) / 2; k++) {
      m = n - k - 1; x = this[k]; y = this[m]; hasX = k in this; hasY = m in this;
      if (hasY) this[k] = y; else delete this[k];
      if (hasX) this[m] = x; else delete this[m];
    }
    return this;
  };
  P.shift = function () {
    var n = this.length >>> 0, v, k;
    if (n == 0) { this.length = 0; return void 0; }
    v = this[0];
    for (k = 1; k < n; k++) move(this, k, k - 1);
    delete this[n - 1]; this.length = n - 1; return v;
  };
  P.slice = function (start, end) {
    var a = [], n = this.length >>> 0, k = within(integer(start), n), m = end === void 0 ? n : within(integer(end), n), j = 0;
    for (; k < m; k++) { if (k in this) a[j] = this[k]; j++; }
    a.length = j; return a;
  };
  P.splice = function (start, deleteCount) {
    var a = [], n = this.length >>> 0, s = within(integer(start), n), d = integer(deleteCount),
        c = arguments.length > 2 ? arguments.length - 2 : 0, k;
    d = d < 0 ? 0 : d > n - s ? n - s : d;
    for (k = 0; k < d; k++) { if ((s + k) in this) a[k] = this[s + k]; }
    a.length = d;
    if (c < d) {
      for (k = s; k < n - d; k++) move(this, k + d, k + c);
      for (k = n; k > n - d + c; k--) delete this[k - 1];
    }
    if (c > d) { for (k = n - d; k > s; k--) move(this, k + d - 1, k + c - 1); }
    for (k = 0; k < c; k++) this[s + k] = arguments[k + 2];
    this.length = n - d + c; return a;
  };
  P.unshift = function (item) {
    var n = this.length >>> 0, c = arguments.length, k;
    for (k = n; k > 0; k--) move(this, k - 1, k + c - 1);
    for (k = 0; k < c; k++) this[k] = arguments[k];
    this.length = n + c; return n + c;
  };
})();
"#;
